// Totals and covered counters of items, by one pass over the counters.
#![tactic(auto)]

ghost use Rattle.std.specs.Prelude.{◌≡◌, ◌<◌, ◌≤◌, length};
ghost use Rattle.tallies.specs.Tallies.{Tallied, ItemNumbers, with_counter};

// How many counters count in an item's total, and how many of these are covered.
#[derive(Clone, Copy)]
pub struct ItemTally {
    pub total: u32,
    pub covered: u32,
}

impl ItemTally {
    // One counter more: hit if it counts in the total, enough if it is covered.
    fn add(&mut self, hit: bool, enough: bool)
        requires { (self.old.total ≤ 65536) × (self.old.covered ≤ 65536) }
        ensures { self.new ≡ with_counter self.old hit enough }
    {
        self.total += u32::from(hit);
        self.covered += u32::from(enough);
    }
}

// By the item's number: a table has at most 24 items. Of each counter there are its item, its flag and its count; the items' at-leasts are lent.
pub fn tally_all(items: &[u8], flags: &[u8], counts: &[u32], leasts: &[u32]) -> [ItemTally; 24]
    requires { (length items.now ≤ length flags.now) × (length items.now ≤ length counts.now) × (length items.now ≤ 65536) × (24 ≤ length leasts.now) × ItemNumbers items.now }
    ensures { Tallied items.now flags.now counts.now leasts.now result }
{
    let none = ItemTally {
        total: 0,
        covered: 0,
    };
    let mut tallies = [none; 24];
    for (i, item) in items.iter().enumerate() {
        let k = usize::from(*item);
        let hit = flags[i] == 1;
        let enough = hit & (leasts[k] <= counts[i]);
        tallies[k].add(hit, enough);
    }
    tallies
}
