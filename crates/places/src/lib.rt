// Lists of places, where few of many elements matter, and counts that are raised at them.
#![tactic(auto)]

pub mod raises;

ghost use Rattle.std.specs.Prelude.{◌≡◌, ◌≤◌, ◌+◌, Bool, ℕ, length};
ghost use Rattle.arrays.specs.Put.{put};
ghost use Rattle.places.specs.Places.{Decides, is_set, of_kind, place_if, places_from};

// A place, if b says so. Answers where the next one stands.
pub fn put_if(out: &mut [u16], at: usize, b: bool, place: usize) -> usize
    requires { (at + length (place_if b place) ≤ length out.old) × (place ≤ 65535) }
    ensures { (result ≡ at + length (place_if b place)) × (out.new ≡ put at (place_if b place) out.old) }
{
    if b {
        out[at] = place as u16;
        return at + 1;
    }
    at
}

// The places of the bytes that f takes, the first of which has place base. Answers how many they are.
fn put_where<F: Fn(u8) -> bool>(out: &mut [u16], xs: &[u8], base: usize, f: F) -> usize
    ghost g: { ℕ → Bool }
    requires callable { F.IsAlwaysCallable f }
    requires decides { Decides (F.post f) g }
    requires room { length (places_from g base xs.now) ≤ length out.old }
    requires small { base + length xs.now ≤ 65535 }
    ensures count { result ≡ length (places_from g base xs.now) }
    ensures places { out.new ≡ put 0 (places_from g base xs.now) out.old }
{
    let mut c = 0;
    for (i, x) in xs.iter().enumerate() {
        c = put_if(out, c, f(*x), base + i);
    }
    c
}

// The places of the flags that are set, the first of which has place base. Answers how many they are.
pub fn put_set(out: &mut [u16], flags: &[u8], base: usize) -> usize
    requires room { length (places_from is_set base flags.now) ≤ length out.old }
    requires small { base + length flags.now ≤ 65535 }
    ensures count { result ≡ length (places_from is_set base flags.now) }
    ensures places { out.new ≡ put 0 (places_from is_set base flags.now) out.old }
{
    put_where(out, flags, base, |x| x == 1)
}

// The places of the cover bins among the kinds of counters, the first of which has place base. Answers how many they are.
pub fn put_covers(out: &mut [u16], kinds: &[u8], base: usize) -> usize
    requires room { length (places_from (of_kind 0) base kinds.now) ≤ length out.old }
    requires small { base + length kinds.now ≤ 65535 }
    ensures count { result ≡ length (places_from (of_kind 0) base kinds.now) }
    ensures places { out.new ≡ put 0 (places_from (of_kind 0) base kinds.now) out.old }
{
    put_where(out, kinds, base, |k| k == 0)
}

// Those of the default bins and the illegal value bins.
pub fn put_plains(out: &mut [u16], kinds: &[u8], base: usize) -> usize
    requires room { length (places_from (of_kind 1) base kinds.now) ≤ length out.old }
    requires small { base + length kinds.now ≤ 65535 }
    ensures count { result ≡ length (places_from (of_kind 1) base kinds.now) }
    ensures places { out.new ≡ put 0 (places_from (of_kind 1) base kinds.now) out.old }
{
    put_where(out, kinds, base, |k| (k == 1) | (k == 2))
}

// Those of all illegal counters.
pub fn put_illegals(out: &mut [u16], kinds: &[u8], base: usize) -> usize
    requires room { length (places_from (of_kind 2) base kinds.now) ≤ length out.old }
    requires small { base + length kinds.now ≤ 65535 }
    ensures count { result ≡ length (places_from (of_kind 2) base kinds.now) }
    ensures places { out.new ≡ put 0 (places_from (of_kind 2) base kinds.now) out.old }
{
    put_where(out, kinds, base, |k| (k == 2) | ((k == 4) | (k == 6)))
}
