// The value of a reading, by the width and the sign of its point.
ghost use Rattle.std.specs.Prelude.{◌≡◌, ◌≤◌, ◌<◌, ◌^◌};
ghost use Rattle.model.specs.Values.{read_value};
ghost use Rattle.ranges.specs.Types.{typed};
ghost use Rattle.values.specs.Value.{value_of, key, InKey};

// Two's complement.
pub fn value(bits: u32, width: u8, signed: bool) -> i64
    requires { (1 ≤ width) × (width ≤ 32) × (bits < 2 ^ width) }
    ensures { result ≡ value_of signed width bits }
{
    let b = bits as u64;
    if signed {
        let half = ranges::power(width - 1);
        if half <= b {
            return (b as i64) - ((2 * half) as i64);
        }
    }
    b as i64
}

// The value plus 2^31.
pub fn offset(v: i64) -> u64
    requires { InKey v }
    ensures { result ≡ key v }
{
    (v + 2147483648) as u64
}

// A reading's value as the definitions number values.
pub fn key_of(bits: u32, width: u8, signed: bool) -> u64
    requires { (1 ≤ width) × (width ≤ 32) × (bits < 2 ^ width) }
    ensures { result ≡ read_value (typed width signed) bits }
{
    offset(value(bits, width, signed))
}
