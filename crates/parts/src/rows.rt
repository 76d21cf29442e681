// The row of a range: seven words, since a plan is an array of words (fixed memory).
ghost use Rattle.std.specs.Prelude.{◌≡◌, ◌≤◌, ◌+◌, length};
ghost use Rattle.arrays.specs.Put.{put};
ghost use Rattle.parts.specs.Words.{row_words, range_of};

// A span and its ends, or a pattern, its bits and mask.
#[derive(Clone, Copy)]
pub enum Range {
    Span { low: u64, high: u64 },
    Pattern { bits: u64, mask: u64 },
}

// A bin's first part, its last part (counted from the first) and its share.
#[derive(Clone, Copy)]
pub struct Deal {
    pub first: u64,
    pub last: u64,
    pub share: u64,
}

// The row of a range of such a bin, which lists `before` values before it.
pub fn put_row(out: &mut [u64], at: usize, r: Range, before: u64, d: Deal)
    requires { at + 7 ≤ length out.old }
    ensures { out.new ≡ put at (row_words d.first d.last d.share before (range_of r)) out.old }
{
    // A row starts with 0 for a span, 1 for a pattern.
    let (kind, low, high) = match r {
        Range::Span { low, high } => (0, low, high),
        Range::Pattern { bits, mask } => (1, bits, mask),
    };
    let row = [kind, low, high, before, d.first, d.last, d.share];
    out[at..at + 7].copy_from_slice(&row);
}
