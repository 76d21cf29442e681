// What the marks of a cross's products say together.
ghost use Rattle.std.specs.Prelude.{◌≡◌, ◌<◌, ◌≤◌, length, take};
ghost use Rattle.model.specs.Lists.{as_bit};
ghost use Rattle.model.specs.Table.{excludes};
ghost use Rattle.model.specs.Format.{kind_from};
ghost use Rattle.crosses.specs.Flags.{heads_at, mask_of, own_mark, own_marks, every_mark};

use words::bytes::byte;
use words::kinds::Kind;

fn excluding(kind: u8) -> u16
    ensures { result ≡ as_bit (excludes (kind_from kind)) }
{
    u16::from(Kind::from(kind).excludes())
}

// Which of the n bins from b on are ignore or illegal bins.
pub fn mask_of(t: &[u8], b: usize, n: usize) -> u16
    requires { (b < 1000000000000) × (n ≤ 16) }
    ensures { result ≡ mask_of (heads_at t.now b n) }
{
    let mut mask: u16 = 0;
    for i in (0..n).rev() {
        mask = mask * 2 + excluding(byte(t, b + 3 * i));
    }
    mask
}

pub fn own_mark(hit: u8, m: u16, mask: u16) -> u16
    ensures { result ≡ own_mark mask hit m }
{
    if (hit == 1) & (m & mask == 0) { m } else { 0 }
}

// The marks of the hit products that no bin of the mask selects.
pub fn own_marks(hits: &[u8], marks: &[u16], n: usize, mask: u16) -> u16
    requires { (n ≤ length hits.now) × (n ≤ length marks.now) }
    ensures { result ≡ own_marks mask (take n hits.now) (take n marks.now) }
{
    let mut own: u16 = 0;
    for i in (0..n).rev() {
        own |= own_mark(hits[i], marks[i], mask);
    }
    own
}

// Those of all hit products, and none in the total.
pub fn every_mark(hits: &[u8], marks: &[u16], n: usize, total: bool) -> u16
    requires { (n ≤ length hits.now) × (n ≤ length marks.now) }
    ensures { result ≡ every_mark total (take n hits.now) (take n marks.now) }
{
    if total {
        return 0;
    }
    own_marks(hits, marks, n, 0)
}
