// Which values ignore and illegal bins take from the cover bins of their point.
ghost use Rattle.std.specs.Prelude.{◌≡◌, ◌≤◌};
ghost use Rattle.ranges.specs.Taken.{taking};

use words::bytes::byte;
use words::kinds::Kind;

// The value bin at b is an ignore or illegal bin of point p.
pub fn takes(t: &[u8], b: usize, p: u8) -> bool
    requires { b ≤ 2000000000 }
    ensures { result ≡ taking t.now b p }
{
    let point = byte(t, b);
    let kind = Kind::from(byte(t, b + 1));
    // Not Kind::excludes: the edit illegal_not_excluded slips in this list.
    (point == p) & matches!(kind, Kind::Ignore | Kind::Illegal)
}
