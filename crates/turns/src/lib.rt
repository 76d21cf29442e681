// The samples of a batch, in turn, on a table and a register that passed their tests, by what was worked out of the table.
#![tactic(auto)]

ghost use Rattle.std.specs.Prelude.{◌≡◌, ◌≤◌, length};
ghost use Rattle.model.specs.Format.{table_of};
ghost use Rattle.model.specs.Register.{call, sample};
ghost use Rattle.turns.specs.Turns.{Ready, Prepared, Done, Took, turns, end_of};

use arrays::element;
use layout::point_count;
use refusals::refusal::Refusal;
use refusals::test_sample;
use samples::write::write_planned;

// How many samples were taken, and how that ended: with the first refused sample, or with the last.
#[derive(Clone, Copy)]
pub struct Taken {
    pub taken: usize,
    pub end: Result<(), Refusal>,
}

// One sample: its own tests, and what it writes.
fn one(
    register: &mut [u32],
    report: &mut [u32],
    t: &[u8],
    s: &[u32],
    plan: &[u64],
    lists: &[u16],
    hits: &mut [u16],
) -> Result<(), Refusal>
    requires { Ready t.now register.old × Prepared t.now plan.now lists.now (length hits.old) }
    ensures { Done (call t.now register.old (sample s.now report.old)) result register.new report.new }
{
    let points = point_count(t);
    let illegals = element(lists, 81 + 514 * points) as usize;
    test_sample(t, s, report, register[0], register[1], points, illegals)?;
    write_planned(register, report, t, s, plan, lists, hits);
    Ok(())
}

// Where the sample that begins at a ends: the last one where the words end.
fn end_of(size: usize, a: usize, n: usize) -> usize
    requires { a ≤ n }
    ensures { result ≡ end_of size a n }
{
    if size <= n - a { a + size } else { n }
}

// All samples, in turn, by what was worked out of the table. hits is scratch.
pub fn each(
    register: &mut [u32],
    reports: &mut [u32],
    t: &[u8],
    s: &[u32],
    plan: &[u64],
    lists: &[u16],
    hits: &mut [u16],
) -> Taken
    requires { Ready t.now register.old × Prepared t.now plan.now lists.now (length hits.old) }
    ensures { Took (turns t.now (table_of t.now) register.old s.now reports.old) result register.new reports.new }
{
    let points = point_count(t);
    let size = 4 + 2 * points;
    let illegals = element(lists, 81 + 514 * points) as usize;
    let mut a = 0;
    let mut k = 0;
    let mut taken = 0;
    while a < s.len() {
        let e = end_of(size, a, s.len());
        if let Err(refusal) = one(register, &mut reports[k..], t, &s[a..e], plan, lists, hits) {
            return Taken {
                taken,
                end: Err(refusal),
            };
        }
        a = e;
        k += illegals;
        taken += 1;
    }
    Taken { taken, end: Ok(()) }
}
