// The truth of a cross bin's tokens for the cover bins of their points: row j, 256 bytes, is that of token j.
ghost use Rattle.std.specs.Prelude.{◌≡◌, ◌<◌, ◌≤◌, ◌+◌, ◌*◌, length};
ghost use Rattle.model.specs.Format.{table_of};
ghost use Rattle.arrays.specs.Put.{put};
ghost use Rattle.products.specs.Tokens.{named_from, Ready, Legal, TokensLegal, RowTold, RowsTold, Kept};

use crate::shapes::{Shape, parts_at};
use arrays::{as_bit, element, put_same};
use meets::plan::{Plan, Question, put_meets};
use values::fields::field;
use words::bytes::{byte, read2};

// binsof(point.bin): which of n cover bins come of value bin b. Their origins stand from `from` on.
fn put_named(leaves: &mut [u8], row: usize, lists: &[u16], from: usize, b: u16, n: usize)
    requires { (row + n ≤ length leaves.old) × (from < 1000000000) × (n ≤ 256) }
    ensures { leaves.new ≡ put row (named_from lists.now b from n) leaves.old }
{
    for i in 0..n {
        leaves[row + i] = as_bit(element(lists, from + i) == b);
    }
}

// Where a token's row begins, where its cross's record stands, and where the token does.
#[derive(Clone, Copy)]
pub struct Token {
    pub row: usize,
    pub cross: usize,
    pub at: usize,
}

// The row of a token: a byte for each part of its point. s is the cross's shape.
fn put_row(leaves: &mut [u8], plan: Plan, k: Token, s: Shape)
    requires row_in_bounds { (k.row + 256 ≤ length leaves.old) × (k.cross < 1000000000) × (k.at < 1000000000) }
    requires ready { Ready plan.table.now k.cross s plan.words.now plan.lists.now × Legal plan.table.now k.cross k.at }
    ensures { RowTold (table_of plan.entry.table.now) plan.entry.table.now k.cross k.at k.row leaves.new × Kept k.row leaves.old leaves.new }
{
    let t = plan.table;
    let op = byte(t, k.at);
    let i = byte(t, k.at + 1);
    let p = byte(t, k.cross + 1 + (i as usize)) as usize;
    let parts = parts_at(s, i as usize);
    if op == 1 {
        let b = read2(t, k.at + 2);
        put_named(leaves, k.row, plan.lists, 64 + 256 * p, b, parts);
        return;
    }
    if op == 2 {
        let lo = field(t, k.at + 4);
        let hi = field(t, k.at + 12);
        let q = Question {
            point: p,
            parts,
            lo,
            hi,
        };
        put_meets(leaves, k.row, plan, q);
        return;
    }
    let v = as_bit(op == 0);
    put_same(leaves, k.row, parts, v);
}

// Where the record of a bin's cross stands, where the bin's tokens begin, and how many they are.
#[derive(Clone, Copy)]
pub struct Tokens {
    pub cross: usize,
    pub at: usize,
    pub count: usize,
}

// The rows of a bin's tokens.
pub fn put_rows(leaves: &mut [u8], plan: Plan, k: Tokens, s: Shape)
    requires count_in_bounds { (256 * k.count ≤ length leaves.old) × (k.count ≤ 32) × (k.cross < 1000000000) × (k.at < 900000000) }
    requires ready { Ready plan.table.now k.cross s plan.words.now plan.lists.now × TokensLegal plan.table.now k.cross k.at k.count }
    ensures { RowsTold (table_of plan.entry.table.now) plan.entry.table.now k.cross k.at k.count leaves.new }
{
    for j in 0..k.count {
        let token = Token {
            row: 256 * j,
            cross: k.cross,
            at: k.at + 20 * j,
        };
        put_row(leaves, plan, token, s);
    }
}
