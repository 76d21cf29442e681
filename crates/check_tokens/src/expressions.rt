// Section 10: whether select tokens are one expression.
#![tactic(auto, unfolding(crate::specs::Tokens::lacks, crate::specs::Tokens::wanted_after))]

ghost use Rattle.std.specs.Prelude.{◌≡◌, ◌≤◌};
ghost use Rattle.model.specs.Format.{token_record, expressions};
ghost use Rattle.model.specs.Raw.{rows};
ghost use Rattle.check_tokens.specs.Tokens.{found, wanted_after, lacks};

use words::bytes::byte;

// How many expressions are wanted after a token, given how many were before it.
fn wanted_after(op: u8, wanted: usize) -> usize
    requires { (1 ≤ wanted) × (wanted ≤ 65536) }
    ensures { result ≡ wanted_after op wanted }
{
    if op <= 2 {
        wanted - 1
    } else if op <= 3 {
        wanted
    } else {
        wanted + 1
    }
}

// Whether no token is wanted, or a not stands before no leaf.
fn lacks(op: u8, next: u8, wanted: usize) -> bool
    ensures { result ≡ lacks op next wanted }
{
    (wanted == 0) | ((op == 3) & (2 < next))
}

// Whether n tokens from start on are one expression.
pub fn one_expression(t: &[u8], n: usize, start: usize) -> bool
    requires { (start ≤ 65536) × (n ≤ 255) }
    ensures { result ≡ found 1 (expressions (rows (token_record t.now) 20 start n)) }
{
    let mut at = start;
    let mut wanted = 1;
    for i in 0..n {
        let op = byte(t, at);
        let next = byte(t, at + 20);
        if lacks(op, next, wanted) {
            return false;
        }
        wanted = wanted_after(op, wanted);
        at += 20;
    }
    wanted == 0
}
