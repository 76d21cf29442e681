// Weights and at-leasts of items, which are the points and then the crosses.
ghost use Rattle.std.specs.Prelude.{◌≡◌, true, ◌≤◌, ◌+◌, length};
ghost use Rattle.model.specs.Format.{accepted, table_of};
ghost use Rattle.model.specs.Figures.{item_count};
ghost use Rattle.arrays.specs.Put.{put};
ghost use Rattle.coverage.specs.Items.{RecordsOf, least_at, weight_at, leasts_of, mean_of, Within};

use crate::records::ItemRecords;
use figures::Group;
use layout::layout_of;
use tallies::ItemTally;
use words::bytes::{read2, read4};

// The records of the table.
fn records_of(t: &[u8]) -> ItemRecords
    ensures { RecordsOf t.now result }
{
    let l = layout_of(t);
    ItemRecords {
        points: l.points,
        point_count: l.point_count,
        crosses: l.crosses,
        cross_count: l.cross_count,
    }
}

impl ItemRecords {
    // How many items there are.
    fn count(self) -> usize
        ensures { result ≡ self.point_count + self.cross_count }
    {
        self.point_count + self.cross_count
    }

    pub fn least_at(self, t: &[u8], i: usize) -> u32
        ensures { result ≡ least_at t.now self.points self.point_count self.crosses self.cross_count i }
    {
        if i < self.point_count {
            return read4(t, self.points + 11 * i + 5);
        }
        let k = i - self.point_count;
        if k < self.cross_count {
            return read4(t, self.crosses + 13 * k + 8);
        }
        1
    }

    pub fn weight_at(self, t: &[u8], i: usize) -> u16
        ensures { result ≡ weight_at t.now self.points self.point_count self.crosses self.cross_count i }
    {
        if i < self.point_count {
            return read2(t, self.points + 11 * i + 3);
        }
        let k = i - self.point_count;
        if k < self.cross_count {
            return read2(t, self.crosses + 13 * k + 6);
        }
        0
    }
}

// The at-least of each item.
pub fn put_leasts(leasts: &mut [u32], t: &[u8])
    requires { (accepted t.now ≡ true) × (24 ≤ length leasts.old) }
    ensures { leasts.new ≡ put 0 (leasts_of (table_of t.now)) leasts.old }
{
    let r = records_of(t);
    let n = r.count();
    for i in 0..n {
        leasts[i] = r.least_at(t, i);
    }
}

// The weighted mean of the items.
pub fn mean(t: &[u8], tallies: &[ItemTally]) -> Option<u32>
    requires { (accepted t.now ≡ true) × (24 ≤ length tallies.now) × Within (item_count (table_of t.now)) tallies.now }
    ensures { result ≡ mean_of (table_of t.now) tallies.now }
{
    let r = records_of(t);
    let n = r.count();
    let mut g = Group::new();
    for i in 0..n {
        let w = r.weight_at(t, i);
        let own = tallies[i];
        g = g.with_item(w, own.total, own.covered);
    }
    g.figure()
}
