// The samples that follow one another in a log: how many a block takes of them, and their words.
ghost use Rattle.std.specs.Prelude.{◌≡◌, ◌+◌, ◌*◌, ◌≤◌, ◌<◌, length};
ghost use Rattle.model.specs.Format.{u32};
ghost use Rattle.model.specs.Raw.{rows};
ghost use Rattle.arrays.specs.Put.{put};
ghost use Rattle.sample_log.specs.Samples.{samples_in, block_count};

use words::bytes::read4;

// The samples of a block, and the words of its reports, at most.
const BLOCK: usize = 256;

const REPORTS: usize = 12416;

// Samples in a row: how many, and how many bytes.
#[derive(Clone, Copy)]
pub struct Block {
    pub count: usize,
    pub size: usize,
}

// The whole samples that the bytes begin with, as many as a block may have; the first is known.
pub fn block_of(bytes: &[u8], points: usize, illegals: usize) -> Block
    requires { (points ≤ 16) × (illegals ≤ 12416) × (20 + 8 * points ≤ length bytes.now) }
    ensures count_nonzero { (0 < result.count) × (result.count ≤ 256) × (result.size ≤ length bytes.now) }
    ensures count_value { (result.count ≡ block_count points illegals bytes.now) × (result.size ≡ result.count * (20 + 8 * points)) }
{
    let one = 20 + 8 * points;
    let mut count = 1;
    let mut size = one;
    let mut words = illegals;
    while count < BLOCK {
        if bytes.len() - size < one {
            break;
        }
        if REPORTS - words < illegals {
            break;
        }
        if read4(bytes, size) != 0 {
            break;
        }
        count += 1;
        size += one;
        words += illegals;
    }
    Block { count, size }
}

// So many words of the bytes, from a place on. Answers where the next one goes.
fn put_words(words: &mut [u32], at: usize, bytes: &[u8], from: usize, n: usize) -> usize
    requires { (at + n ≤ length words.old) × (at < 65536) × (n < 65536) × (from < 65536) }
    ensures { (result ≡ at + n) × (words.new ≡ put at (rows (u32 bytes.now) 4 from n) words.old) }
{
    // By index: after iter_mut a proof knows no more than the length, and past their end the bytes count as 0.
    for i in 0..n {
        words[at + i] = read4(bytes, from + 4 * i);
    }
    at + n
}

// The words of so many samples, without the word before each. Answers how many they are.
pub fn put_samples(words: &mut [u32], bytes: &[u8], points: usize, count: usize) -> usize
    requires { (length words.old ≡ 9216) × (points ≤ 16) × (count ≤ 256) }
    ensures { (result ≡ length (samples_in points count bytes.now)) × (result ≤ 9216) × (words.new ≡ put 0 (samples_in points count bytes.now) words.old) }
{
    let n = 4 + 2 * points;
    let mut at = 0;
    let mut from = 0;
    for i in 0..count {
        at = put_words(words, at, bytes, from + 4, n);
        from += 4 + 4 * n;
    }
    at
}
