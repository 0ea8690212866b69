// What programs in other languages call.
#![tactic(auto)]

ghost use Rattle.std.specs.Prelude.{◌≡◌, ℕ, ◌*◌, ◌<◌, ◌≤◌, length};
ghost use Rattle.model.specs.Inputs.{O, L, fault_count};
ghost use Rattle.model.specs.Accepted.{ValidInputs};
ghost use Rattle.lanes.specs.Lane.{bit};
ghost use Rattle.faults.specs.Given.{lane_fault};
ghost use Rattle.job.specs.Job.{answer_of, JobOf};
ghost use Rattle.model.specs.Grade.{grade_answer, grade_area};
ghost use Rattle.model.specs.Choose.{choose_answer, choose_area};
ghost use Rattle.bench_text.specs.Bench.{read_answer, read_area};
ghost use Rattle.exported.specs.Detected.{opposed, detected};
ghost use Rattle.exported.specs.Answered.{answered};

use job::{Job, Outcome};
use rules::Refusal;
use run::Setup;
use unit::GivenFaults;

// What a call returns, in numbers: 0, 0 and how much it did; or 1 and the row that is broken, with its position.
#[repr(C)]
#[derive(Clone, Copy)]
pub struct Answered {
    pub refused: usize,
    pub rule: usize,
    pub number: usize,
}

impl From<Outcome> for Answered {
    ghost from_gives = { λ outcome r. answered r ≡ answer_of outcome };

    #[tactic(auto, unfolding(crate::specs::Answered::answered, job::specs::Job::answer_of))]
    fn from(outcome: Outcome) -> Answered {
        match outcome {
            Ok(number) => Answered {
                refused: 0,
                rule: 0,
                number,
            },
            Err(Refusal { rule, at }) => Answered {
                refused: 1,
                rule: usize::from(rule.number()),
                number: at,
            },
        }
    }
}

// The faults of the list, one to a lane, each from the power-up state.
fn detect(c: &[u8], job: Job, t: &[u8], fs: &[u8], free: &[u8]) -> u64
    requires { (ValidInputs c.now t.now 0 64 fs.now) × (JobOf c.now t.now job) × (L c.now t.now * O c.now ≤ length free.now) }
    ensures { (j : ℕ) → j < 64 → bit j result ≡ opposed c.now t.now free.now (lane_fault fs.now 0 (fault_count fs.now) j) }
{
    let mut pins = [0u16; 16384];
    let mut flops = [0usize; 256];
    let mut outs = [0usize; 256];
    let mut hits = [0u8; 4096];
    let mut masks = [0u64; 2560];
    let mut feed = [0u64; 512];
    let mut words = [0u64; 8192];
    let mut state = [0u64; 512];
    circuit::list_tables(c, job.lines, &mut pins, &mut flops, &mut outs);
    faults::give_batch(fs, 0, fs.len() / 4, &mut hits, &mut masks);
    run::power_up(c, job.flops, &mut state);
    let setup = Setup {
        circuit: c,
        test: t,
        job,
        pins: &pins,
        flops: &flops,
        outs: &outs,
    };
    run::opposing_ever(
        &setup,
        job.units,
        free,
        u64::MAX,
        &GivenFaults {
            hits: &hits,
            masks: &masks,
        },
        &mut feed,
        &mut words,
        &mut state,
    )
}

// Up to 64 faults, of which bit j of the result says whether plain simulation detects fault j, given the responses of the fault-free
// circuit. A lane past the end of the list has no fault. The result is 0 where an input is not accepted.
#[unsafe(no_mangle)]
pub extern "C" fn balithoomai_detected(
    circuit: &[u8],
    test: &[u8],
    faults: &[u8],
    free: &[u8],
) -> u64
    ensures { (j : ℕ) → j < 64 → bit j result ≡ detected circuit.now test.now faults.now free.now j }
{
    match job::check_inputs(circuit, test, faults, 0, 64) {
        Err(_) => 0,
        Ok(job) => {
            if free.len() < job.units * job.outputs {
                return 0;
            }
            detect(circuit, job, test, faults, free)
        }
    }
}

// Grade, as programs in other languages call it.
#[unsafe(no_mangle)]
pub extern "C" fn balithoomai_grade(
    circuit: &[u8],
    test: &[u8],
    faults: &[u8],
    plan: &[u8],
    k: usize,
    work: &mut [u8],
    res: &mut [u8],
) -> Answered
    ensures answers { answered result ≡ grade_answer circuit.now test.now faults.now plan.now k (length work.old) (length res.old) }
    ensures writes { res.new ≡ grade_area circuit.now test.now faults.now plan.now k (length work.old) res.old }
{
    Answered::from(grade::grade(circuit, test, faults, plan, k, work, res))
}

// Choose, as programs in other languages call it.
#[unsafe(no_mangle)]
pub extern "C" fn balithoomai_choose(
    circuit: &[u8],
    test: &[u8],
    faults: &[u8],
    k: usize,
    work: &mut [u8],
    res: &mut [u8],
) -> Answered
    ensures answers { answered result ≡ choose_answer circuit.now test.now faults.now k (length work.old) (length res.old) }
    ensures writes { res.new ≡ choose_area circuit.now test.now faults.now k (length work.old) res.old }
{
    Answered::from(choose::choose(circuit, test, faults, k, work, res))
}

// `read_bench`, as programs in other languages call it.
#[unsafe(no_mangle)]
pub extern "C" fn balithoomai_read_bench(text: &[u8], res: &mut [u8]) -> Answered
    ensures answers { answered result ≡ read_answer text.now (length res.old) }
    ensures writes { res.new ≡ read_area text.now res.old }
{
    Answered::from(read_bench::read_bench(text, res))
}
