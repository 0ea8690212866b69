// Rows 7 to 17 of the table of refusals, and for each call the rows that it takes, joined as the table joins them: the first that is
// broken. A row that would use what a row above has not yet allowed is looked at only after it.
#![tactic(auto)]

ghost use Rattle.std.specs.Prelude.{List, ◌≡◌, ℕ, ◌+◌, ◌*◌, ◌<◌, ◌≤◌, length};
ghost use Rattle.lists.specs.Scan.{◌else◌};
ghost use Rattle.model.specs.Inputs.{N, I, fault_at};
ghost use Rattle.model.specs.Refusals.{row7, row8, row9, fault_fits, row10, row11, row12, row13, row14, row16, row17, input_rows, simulate_refusal, grade_refusal, choose_refusal, group_refusal, answer};
ghost use Rattle.model.specs.Generate.{generate_answer};
ghost use Rattle.rules.specs.Check.{refusal_of};
ghost use Rattle.job.specs.Job.{answer_of, JobOf, JobChecked, Limited};

use rules::{Refusal, Rule, refuse};

// What a call returns: how much it did, or why it refused.
pub type Outcome = Result<usize, Refusal>;

// N, I, F, O and L.
#[derive(Clone, Copy)]
pub struct Job {
    pub lines: usize,
    pub inputs: usize,
    pub flops: usize,
    pub outputs: usize,
    pub units: usize,
}

// Row 7.
#[tactic(auto, unfolding(model::specs::Refusals::row7, model::specs::Inputs::L))]
fn check_units(t: &[u8], inputs: usize) -> Result<(), Refusal>
    requires { 0 < inputs }
    ensures { (c : List ℕ) → I c ≡ inputs → refusal_of result ≡ row7 c t.now }
{
    let size = t.len();
    let wrong = size == 0 || size % inputs != 0 || 1024 < size / inputs;
    refuse(wrong, Rule::TestLength, 0)
}

// Row 8.
fn check_bytes(t: &[u8]) -> Result<(), Refusal>
    ensures { refusal_of result ≡ row8 t.now }
{
    for (b, byte) in t.iter().enumerate() {
        refuse(1 < *byte, Rule::TestByte, b)?;
    }
    Ok(())
}

// Row 9.
#[tactic(auto, unfolding(model::specs::Refusals::row9, model::specs::Inputs::fault_count))]
fn check_count(fs: &[u8], least: usize, most: usize) -> Result<(), Refusal>
    ensures { refusal_of result ≡ row9 least most fs.now }
{
    let size = fs.len();
    let wrong = size % 4 != 0 || size / 4 < least || most < size / 4;
    refuse(wrong, Rule::FaultsLength, 0)
}

// Whether a fault's line, pin and value are as row 10 asks.
#[tactic(auto, unfolding(model::specs::Refusals::fault_fits))]
fn fault_fits(c: &[u8], lines: usize, fs: &[u8], j: usize) -> bool
    requires { (12 * lines ≤ length c.now) × (lines ≡ N c.now) × (4 * j + 4 ≤ length fs.now) }
    ensures { result ≡ fault_fits c.now (fault_at fs.now j) }
{
    let f = circuit::fault_of(fs, j);
    f.line < lines && f.pin <= circuit::pins_of(c, f.line) && f.value <= 1
}

// Row 10.
fn check_each(c: &[u8], lines: usize, fs: &[u8]) -> Result<(), Refusal>
    requires { (12 * lines ≤ length c.now) × (lines ≡ N c.now) }
    ensures { refusal_of result ≡ row10 c.now fs.now }
{
    for j in 0..fs.len() / 4 {
        refuse(!fault_fits(c, lines, fs, j), Rule::Fault, j)?;
    }
    Ok(())
}

// Row 11.
#[tactic(auto, unfolding(model::specs::Refusals::row11, model::specs::Inputs::plan_count))]
fn check_plan(plan: &[u8]) -> Result<(), Refusal>
    ensures { refusal_of result ≡ row11 plan.now }
{
    let size = plan.len();
    refuse(size % 4 != 0 || 4096 < size / 4, Rule::PlanLength, 0)
}

// Row 12.
#[tactic(auto, unfolding(model::specs::Refusals::row12))]
fn check_k(k: usize) -> Result<(), Refusal>
    ensures { refusal_of result ≡ row12 k }
{
    refuse(12 < k, Rule::MostPairs, 0)
}

// Rows 13 and 14, of a result of so many bytes.
fn check_areas(job: Job, work: usize, size: usize, res: usize) -> Result<(), Refusal>
    requires { Limited job }
    ensures { (c t : List ℕ) → JobOf c t job → refusal_of result ≡ (row13 c t work else row14 size res) }
{
    let need = 4 * job.lines + job.units * (4 * job.outputs + 16 * job.flops + 8);
    refuse(work < need, Rule::WorkArea, 0)?;
    refuse(res < size, Rule::ResultArea, 0)
}

// Rows 1 to 10.
pub fn check_inputs(
    c: &[u8],
    t: &[u8],
    fs: &[u8],
    least: usize,
    most: usize,
) -> Result<Job, Refusal>
    ensures { JobChecked c.now t.now (input_rows c.now t.now least most fs.now) result }
{
    let s = rules::check_circuit(c)?;
    check_units(t, s.inputs)?;
    check_bytes(t)?;
    check_count(fs, least, most)?;
    check_each(c, s.lines, fs)?;
    Ok(Job {
        lines: s.lines,
        inputs: s.inputs,
        flops: s.flops,
        outputs: s.outputs,
        units: t.len() / s.inputs,
    })
}

// Simulate: rows 1 to 10, 13 and 14.
pub fn check_simulate(
    c: &[u8],
    t: &[u8],
    fs: &[u8],
    work: usize,
    res: usize,
) -> Result<Job, Refusal>
    ensures { JobChecked c.now t.now (simulate_refusal c.now t.now fs.now work res) result }
{
    let job = check_inputs(c, t, fs, 0, 1)?;
    check_areas(job, work, job.units * job.outputs, res)?;
    Ok(job)
}

// Grade: rows 1 to 14.
pub fn check_grade(
    c: &[u8],
    t: &[u8],
    fs: &[u8],
    plan: &[u8],
    k: usize,
    work: usize,
    res: usize,
) -> Result<Job, Refusal>
    ensures { JobChecked c.now t.now (grade_refusal c.now t.now fs.now plan.now k work res) result }
{
    let job = check_inputs(c, t, fs, 0, 32768)?;
    check_plan(plan)?;
    check_k(k)?;
    check_areas(job, work, 16 * (fs.len() / 4), res)?;
    Ok(job)
}

// Choose: rows 1 to 10 and 12 to 14.
pub fn check_choose(
    c: &[u8],
    t: &[u8],
    fs: &[u8],
    k: usize,
    work: usize,
    res: usize,
) -> Result<Job, Refusal>
    ensures { JobChecked c.now t.now (choose_refusal c.now t.now fs.now k work res) result }
{
    let job = check_inputs(c, t, fs, 1, 1)?;
    check_k(k)?;
    check_areas(job, work, 4 * k, res)?;
    Ok(job)
}

// Group: rows 15 and 14.
pub fn check_group(verdicts: &[u8], res: usize) -> Result<(), Refusal>
    ensures { refusal_of result ≡ group_refusal verdicts.now res }
{
    let size = verdicts.len();
    let wrong = size % 16 != 0 || 524288 < size;
    refuse(wrong, Rule::VerdictsLength, 0)?;
    refuse(res < 2 * (size / 16), Rule::ResultArea, 0)
}

// Rows 16 and 17.
fn check_load(seed: u16, units: usize) -> Result<(), Refusal>
    ensures { refusal_of result ≡ (row16 seed else row17 units) }
{
    let unset = seed == 0;
    let wrong = units == 0 || 1024 < units;
    refuse(unset, Rule::Seed, 0)?;
    refuse(wrong, Rule::TimeUnits, 0)
}

// Row 14 of a call that writes so many bytes and returns their number.
#[tactic(auto, unfolding(crate::specs::Job::answer_of, model::specs::Refusals::answer, model::specs::Refusals::row14, model::specs::Refusals::refuse, rules::specs::Check::refusal_of))]
fn check_result(size: usize, res: usize) -> Outcome
    ensures { answer_of result ≡ answer (row14 size res) size }
{
    refuse(res < size, Rule::ResultArea, 0)?;
    Ok(size)
}

// Generate: rows 1 to 6, 16, 17 and 14, and where none is broken the number of bytes, which is what the call returns.
pub fn check_generate(c: &[u8], seed: u16, units: usize, res: usize) -> Outcome
    ensures { answer_of result ≡ generate_answer c.now seed units res }
{
    let s = rules::check_circuit(c)?;
    check_load(seed, units)?;
    check_result(units * s.inputs, res)
}
