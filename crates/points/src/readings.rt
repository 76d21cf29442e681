// The reading of each point of a sample.
ghost use Rattle.std.specs.Prelude.{◌≡◌, true, ◌<◌, ◌≤◌, ◌+◌, ◌*◌, ◌^◌, length};
ghost use Rattle.model.specs.Sampling.{value_word};
ghost use Rattle.model.specs.Format.{byte, accepted, table_of};
ghost use Rattle.model.specs.Register.{point_total, in_widths};
ghost use Rattle.ranges.specs.Types.{Wide};
ghost use Rattle.arrays.specs.Put.{put};
ghost use Rattle.arrays.specs.Flat.{reading_codes};
ghost use Rattle.points.specs.Readings.{code_at, codes_from, Read};

use arrays::reading::Reading;
use layout::point_count;
use values::fields::{guard_true, word};
use values::value::key_of;
use words::bytes::byte;

// The number of a point, and its reading.
#[derive(Clone, Copy)]
pub struct PointReading {
    pub point: u8,
    pub reading: Reading,
}

// The reading of point p, whose record stands at point.
fn read_one(t: &[u8], point: usize, sample: &[u32], p: usize) -> Reading
    requires { (point < 1000000000) × (p < 65536) × Wide t.now point × (value_word sample.now p < 2 ^ byte t.now point) }
    ensures { result ≡ code_at t.now sample.now point p }
{
    let g = byte(t, point + 2);
    if !guard_true(sample, g) {
        return Reading::Skipped;
    }
    let u = word(sample, 5 + 2 * p);
    if u != 0 {
        return Reading::Unknown;
    }
    let x = word(sample, 4 + 2 * p);
    let width = byte(t, point);
    let signed = byte(t, point + 1);
    Reading::Known(key_of(x, width, signed == 1))
}

// Those of n points, whose records stand from points on.
fn put_readings(readings: &mut [Reading], t: &[u8], points: usize, n: usize, sample: &[u32])
    requires { (points < 100000000) × (n ≤ 16) × (n ≤ length readings.old) × Read t.now sample.now points n }
    ensures { readings.new ≡ put 0 (codes_from t.now sample.now points 0 n) readings.old }
{
    for i in 0..n {
        let r = read_one(t, points + 11 * i, sample, i);
        readings[i] = r;
    }
}

// The reading of each point.
pub fn read_all(readings: &mut [Reading], t: &[u8], sample: &[u32])
    requires { (accepted t.now ≡ true) × (16 ≤ length readings.old) × (length sample.now ≡ 4 + 2 * point_total (table_of t.now)) × (in_widths (table_of t.now) sample.now ≡ true) }
    ensures { readings.new ≡ put 0 (reading_codes (table_of t.now) sample.now) readings.old }
{
    let n = point_count(t);
    put_readings(readings, t, 2, n, sample);
}
