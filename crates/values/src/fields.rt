// Fields of a range, guard bits and words of a sample. Past the end of a sample every word reads as 0.
ghost use Rattle.std.specs.Prelude.{◌≡◌, ◌<◌, get_or};
ghost use Rattle.model.specs.Lists.{bit};
ghost use Rattle.model.specs.Values.{field_value};
ghost use Rattle.model.specs.Sampling.{guard_true};
ghost use Rattle.model.specs.Format.{u64, guard_from};

use words::bytes::read8;

// The value of an i64 field, moved up by 2 to the 31.
pub fn field(t: &[u8], at: usize) -> u64
    requires { at < 4294967280 }
    ensures { result ≡ field_value (u64 t.now at) }
{
    ranges::value_at(read8(t, at))
}

pub fn word(s: &[u32], at: usize) -> u32
    ensures { result ≡ get_or s.now at 0 }
{
    s.get(at).copied().unwrap_or(0)
}

pub fn bit_of(w: u32, i: u8) -> bool
    requires { i < 32 }
    ensures { result ≡ bit i w }
{
    (w >> i) % 2 == 1
}

pub fn guard_true(s: &[u32], g: u8) -> bool
    ensures { result ≡ guard_true s.now (guard_from g) }
{
    // The table's format writes 255 where a bin has no guard.
    if g == 255 {
        true
    } else {
        let k = (g / 32) as usize;
        let i = g % 32;
        bit_of(word(s, k), i) & !bit_of(word(s, 2 + k), i)
    }
}
