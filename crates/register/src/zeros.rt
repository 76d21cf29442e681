// The register's words.
ghost use Rattle.std.specs.Prelude.{◌≡◌, ◌+◌, ◌≤◌, length, replicate, set};
ghost use Rattle.arrays.specs.Put.{put};

use arrays::put_same;

// The flag 1, and n words 0.
pub fn run(register: &mut [u32], at: usize, n: usize)
    requires { (1 ≤ length register.old) × (at + n ≤ length register.old) }
    ensures { register.new ≡ put at (replicate n 0) (set register.old 0 1) }
{
    register[0] = 1;
    put_same(register, at, n, 0);
}
