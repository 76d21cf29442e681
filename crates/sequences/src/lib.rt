// What a sample does to the run words of one sequence.
#![tactic(auto)]

ghost use Rattle.std.specs.Prelude.{◌≡◌, List, ◌++◌, ◌+◌, ◌-◌, ◌≤◌, length, take, drop, replicate};
ghost use Rattle.model.specs.Table.{Step};
ghost use Rattle.model.specs.Sampling.{Reading, run_length, next_steps, matched_lengths};
ghost use Rattle.sequences.specs.Shapes.{shape_of, admitted_bits, words_of, Fits};
ghost use Rattle.sequences.specs.Words.{step_words, complete_from, padded};
ghost use Rattle.arrays.specs.Put.{put};

use words::choices::pick;

// The run words of a sequence come first, one for each unit of its steps' mosts. The words after them are free.
#[derive(Clone, Copy)]
pub struct Run {
    pub words: [u32; 32],
}

// The lengths at which a step is complete: its words stand from `at` on, and those of `least` or more readings count.
fn complete(words: &[u32], at: usize, least: usize, most: usize) -> u32
    requires { at + most ≤ length words.now }
    ensures { result ≡ complete_from least (take most (drop at words.now)) }
{
    // By index: a slice from least on would need least to be at most most.
    let mut out: u32 = 0;
    for j in least.saturating_sub(1)..most {
        out |= words[at + j];
    }
    out
}

// The next words of a step, from `at` on. The first is `enter`, each other the old word before it, one reading longer.
fn step_words(old: &[u32], words: &mut [u32], at: usize, most: usize, inside: bool, enter: u32)
    requires { (at + most ≤ length old.now) × (at + most ≤ length words.old) }
    ensures { words.new ≡ put at (step_words inside enter (take most (drop at old.now))) words.old }
{
    let mut next = enter;
    for j in 0..most {
        let p = at + j;
        words[p] = pick(inside, next, 0);
        next = old[p] << 1;
    }
}

impl Run {
    // The run after a reading that lies in the admitted steps. Length 1 enters the first step; what completes a step enters the next one. Free words become 0.
    pub fn next(self, shape: &[u64], admitted: u64) -> Run
        requires { Fits shape.now }
        ensures { (ss : List Step) (reading : Reading) → shape.now ≡ shape_of ss → admitted ≡ admitted_bits ss reading → result.words ≡ next_steps ss (take (run_length ss) self.words) 1 reading ++ replicate (32 - run_length ss) 0 }
    {
        let old = self.words;
        let mut words = [0u32; 32];
        let mut enter: u32 = 1;
        let mut left = admitted;
        let mut at = 0;
        for s in 0..shape.len() / 2 {
            let least = shape[2 * s] as usize;
            let most = shape[2 * s + 1] as usize;
            step_words(&old, &mut words, at, most, left % 2 == 1, enter);
            enter = complete(&old, at, least, most) << 1;
            at += most;
            left /= 2;
        }
        Run { words }
    }
}

// A sequence's words as a run.
fn load(words: &[u32]) -> Run
    requires { length words.now ≤ 32 }
    ensures { result.words ≡ padded words.now }
{
    let mut own = [0u32; 32];
    own[..words.len()].copy_from_slice(words);
    Run { words: own }
}

// The run over a sequence's words.
fn store(words: &mut [u32], run: Run)
    requires { length words.old ≤ 32 }
    ensures { words.new ≡ take (length words.old) run.words }
{
    let n = words.len();
    words.copy_from_slice(&run.words[..n]);
}

// Writes a sequence's next run over its words, which are all that is lent. A reading that lies in no step leaves nothing.
pub fn write_run(words: &mut [u32], shape: &[u64], admitted: u64)
    requires fits { Fits shape.now }
    requires words_len { length words.old ≡ words_of shape.now }
    ensures { (ss : List Step) (reading : Reading) → shape.now ≡ shape_of ss → admitted ≡ admitted_bits ss reading → words.new ≡ next_steps ss words.old 1 reading }
{
    if admitted == 0 {
        words.fill(0);
        return;
    }
    let run = load(words);
    store(words, run.next(shape, admitted));
}

// The lengths at which the whole sequence matches, by its words: those at which its last step is complete.
pub fn matched_lengths(words: &[u32], shape: &[u64]) -> u32
    requires fits { Fits shape.now }
    requires words_len { length words.now ≡ words_of shape.now }
    ensures { (ss : List Step) → shape.now ≡ shape_of ss → result ≡ matched_lengths ss words.now }
{
    let n = shape.len();
    if n == 0 {
        return 0;
    }
    let least = shape[n - 2] as usize;
    let most = shape[n - 1] as usize;
    complete(words, words.len() - most, least, most)
}
