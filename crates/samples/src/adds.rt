// Unknown counts that are raised.
ghost use Rattle.std.specs.Prelude.{◌≡◌, true, ◌≤◌, ◌+◌, length, take, drop};
ghost use Rattle.arrays.specs.Put.{put};
ghost use Rattle.samples.specs.Adds.{add_hits, is_unknown_code, all_room};

use arrays::raised;
use arrays::reading::Reading;

// Each of n counts from at on is raised where its point's reading is unknown.
pub fn add_unknowns(register: &mut [u32], at: usize, readings: &[Reading], n: usize)
    requires { (at + n ≤ length register.old) × (n ≤ length readings.now) × (all_room (take n (drop at register.old)) ≡ true) }
    ensures { register.new ≡ put at (add_hits is_unknown_code (take n readings.now) (take n (drop at register.old))) register.old }
{
    for i in 0..n {
        let k = at + i;
        register[k] = raised(register[k], readings[i].is_unknown());
    }
}
