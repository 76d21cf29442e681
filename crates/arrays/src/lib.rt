// Elements of flat arrays. Those that write one after the other answer where the next stands.
#![tactic(auto)]

ghost use Rattle.std.specs.Prelude.{◌≡◌, [], ◌∷◌, ◌<◌, ◌≤◌, ◌+◌, length, get_or, replicate};
ghost use Rattle.model.specs.Lists.{as_bit};
ghost use Rattle.arrays.specs.Put.{put};

pub mod reading;

pub fn as_bit(b: bool) -> u8
    ensures { result ≡ as_bit b }
{
    if b { 1 } else { 0 }
}

// A count, and one more where it is hit.
pub fn raised(n: u32, hit: bool) -> u32
    requires { n < 4294967295 }
    ensures { result ≡ as_bit hit + n }
{
    if hit { n + 1 } else { n }
}

// An element; 0 past the array's end.
pub fn element(a: &[u16], at: usize) -> u16
    ensures { result ≡ get_or a.now at 0 }
{
    if at < a.len() { a[at] } else { 0 }
}

// One flag.
pub fn put_one(flags: &mut [u8], at: usize, b: bool) -> usize
    requires { at < length flags.old }
    ensures { (result ≡ at + 1) × (flags.new ≡ put at (as_bit b ∷ []) flags.old) }
{
    let x = as_bit(b);
    flags[at] = x;
    at + 1
}

// n elements v.
pub fn put_same<T: Copy>(xs: &mut [T], at: usize, n: usize, v: T) -> usize
    requires { at + n ≤ length xs.old }
    ensures { (result ≡ at + n) × (xs.new ≡ put at (replicate n v) xs.old) }
{
    let end = at + n;
    for i in at..end {
        xs[i] = v;
    }
    end
}
