// What the transition bins add to the entries of their points, in one pass.
ghost use Rattle.std.specs.Prelude.{◌≡◌, true, ◌+◌, ◌≤◌, ◌<◌};
ghost use Rattle.model.specs.Lists.{all};
ghost use Rattle.model.specs.Format.{byte};
ghost use Rattle.model.specs.Ranges.{covers_of, transitions_of};
ghost use Rattle.model.specs.Raw.{rows};
ghost use Rattle.layout.specs.Places.{Small};
ghost use Rattle.words.specs.Kinds.{meant};
ghost use Rattle.limits.specs.Bins.{more, added, Entries, here, place_point, place_singles, place_bars, point_below};

use crate::entries::{Counts, add};
use layout::Layout;
use words::bytes::byte;
use words::kinds::Kind;

fn transition_of(kind: Kind) -> u32
    ensures { (result ≡ transitions_of (meant kind)) × (result ≤ 1) }
{
    match kind {
        Kind::Cover | Kind::Illegal => 1,
        _ => 0,
    }
}

// 1 for a bin that bars auto bins.
fn cover_of(kind: Kind) -> u32
    ensures { (result ≡ covers_of (meant kind) 1) × (result ≤ 1) }
{
    match kind {
        Kind::Cover => 1,
        _ => 0,
    }
}

// The transition bin at b.
fn add_transition(counts: &mut Counts, t: &[u8], b: usize)
    requires b_bound { (b ≤ 1000000000) × (byte t.now b < 16) }
    requires entries { Entries 100000 counts.old.singles × Entries 100000 counts.old.bars }
    ensures covers { counts.new.covers ≡ counts.old.covers }
    ensures singles_after { counts.new.singles ≡ more (byte t.now b) (place_singles t.now b) counts.old.singles }
    ensures bars_after { counts.new.bars ≡ more (byte t.now b) (place_bars t.now b) counts.old.bars }
{
    let p = usize::from(byte(t, b));
    let kind = Kind::from(byte(t, b + 1));
    add(&mut counts.singles, p, transition_of(kind));
    add(&mut counts.bars, p, cover_of(kind));
}

// All transition bins.
pub fn add_transitions(counts: &mut Counts, t: &[u8], l: Layout)
    requires points_below { Small l × (all (point_below t.now 16) (rows here 4 l.transitions l.transition_count) ≡ true) }
    requires entries { Entries 1000 counts.old.singles × Entries 1000 counts.old.bars }
    ensures covers { counts.new.covers ≡ counts.old.covers }
    ensures singles_after { counts.new.singles ≡ added (place_point t.now) (place_singles t.now) (rows here 4 l.transitions l.transition_count) counts.old.singles }
    ensures bars_after { counts.new.bars ≡ added (place_point t.now) (place_bars t.now) (rows here 4 l.transitions l.transition_count) counts.old.bars }
    ensures entries_2 { Entries (1000 + l.transition_count) counts.new.singles × Entries (1000 + l.transition_count) counts.new.bars }
{
    let mut at = l.transitions;
    for i in 0..l.transition_count {
        add_transition(counts, t, at);
        at += 4;
    }
}
