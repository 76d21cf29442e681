// From the cover bins of the points to their counters.
ghost use Rattle.std.specs.Prelude.{◌≡◌, true, ◌<◌, ◌≤◌, ◌+◌, ◌*◌, length, take};
ghost use Rattle.model.specs.Counters.{has_value};
ghost use Rattle.model.specs.Format.{accepted, table_of};
ghost use Rattle.model.specs.Register.{point_total};
ghost use Rattle.arrays.specs.Put.{put};
ghost use Rattle.arrays.specs.Flat.{total_flags, all_point_counters, point_starts, Tells};
ghost use Rattle.points.specs.Gates.{Kinded};
ghost use Rattle.points.specs.Spread.{spread_one, next_at, spread};

use arrays::as_bit;
use layout::point_count;

fn spread_one(kind: u8, x: u8) -> u8
    ensures { result ≡ spread_one kind x }
{
    if kind == 0 { x } else { as_bit(kind == 3) }
}

fn next_at(kind: u8, at: usize) -> usize
    requires { at < 100000 }
    ensures { (result ≡ next_at kind at) × (result ≤ at + 1) }
{
    at + usize::from(kind == 0)
}

// n counters from number from on; the elements of their cover bins stand from at on.
fn scatter_some(flags: &mut [u8], kinds: &[u8], has: &[u8], from: usize, at: usize, n: usize)
    requires { (from + n ≤ length flags.old) × (from + n ≤ length kinds.now) × (at + n ≤ length has.now) × (at + n ≤ 4096) }
    ensures { flags.new ≡ put from (spread kinds.now has.now from at n) flags.old }
{
    let mut a = at;
    for i in 0..n {
        let k = kinds[from + i];
        let x = has[a];
        let y = spread_one(k, x);
        flags[from + i] = y;
        a = next_at(k, a);
    }
}

// Those of each of n points.
fn scatter_each(
    flags: &mut [u8],
    t: &[u8],
    kinds: &[u8],
    has: &[u8],
    starts: &[u16],
    n: usize,
) -> usize
    requires t_value { (accepted t.now ≡ true) × (256 * point_total (table_of t.now) ≤ length flags.old) × (256 * point_total (table_of t.now) ≤ length has.now) × (17 ≤ length starts.now) × (n ≡ point_total (table_of t.now)) }
    requires kinded { (Kinded (table_of t.now) kinds.now) × (take (point_total (table_of t.now) + 1) starts.now ≡ point_starts (table_of t.now)) × (Tells (has_value (table_of t.now)) (table_of t.now) has.now) }
    ensures value { result ≡ length (all_point_counters (table_of t.now)) }
    ensures flags_after { flags.new ≡ put 0 (total_flags (table_of t.now) (all_point_counters (table_of t.now))) flags.old }
{
    let mut c: usize = 0;
    for p in 0..n {
        let e = starts[p + 1] as usize;
        scatter_some(flags, kinds, has, c, 256 * p, e - c);
        c = e;
    }
    c
}

// Which counters of the points count in their items' totals, given which cover bins hold a value: how many counters there are.
pub fn scatter(flags: &mut [u8], t: &[u8], kinds: &[u8], has: &[u8], starts: &[u16]) -> usize
    requires t_value { (accepted t.now ≡ true) × (256 * point_total (table_of t.now) ≤ length flags.old) × (256 * point_total (table_of t.now) ≤ length has.now) × (17 ≤ length starts.now) }
    requires kinded { (Kinded (table_of t.now) kinds.now) × (take (point_total (table_of t.now) + 1) starts.now ≡ point_starts (table_of t.now)) × (Tells (has_value (table_of t.now)) (table_of t.now) has.now) }
    ensures value { result ≡ length (all_point_counters (table_of t.now)) }
    ensures flags_after { flags.new ≡ put 0 (total_flags (table_of t.now) (all_point_counters (table_of t.now))) flags.old }
{
    let n = point_count(t);
    scatter_each(flags, t, kinds, has, starts, n)
}
