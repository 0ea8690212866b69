// The call Grade.
#![tactic(auto)]

ghost use Rattle.std.specs.Prelude.{◌≡◌, ◌*◌, ◌≤◌, length};
ghost use Rattle.lists.specs.Field.{overwritten};
ghost use Rattle.model.specs.Inputs.{fault_count};
ghost use Rattle.model.specs.Accepted.{GradeReady, ValidInputs};
ghost use Rattle.model.specs.Refusals.{grade_refusal, unless_refused};
ghost use Rattle.model.specs.Grade.{grade_bytes, grade_answer, grade_area};
ghost use Rattle.model.specs.Promises.{Demand3};
ghost use Rattle.faults.specs.Given.{Blank};
ghost use Rattle.job.specs.Job.{answer_of, JobOf};
ghost use Rattle.stages.specs.Stages.{Grades, Standing, RowRoom};
ghost use Rattle.grade.specs.Graded.{TableRoom, Graded};

use job::{Job, Outcome};
use run::Setup;
use stages::{LaneFaults, Space};
use trial::Pair;
use unit::GivenFaults;

// The records of all faults of the list: the sieve, and then what it leaves open, pack by pack.
fn grade_list(
    setup: &Setup,
    fs: &[u8],
    plan: &[u8],
    k: usize,
    given: &mut LaneFaults,
    space: &mut Space,
    states: &mut [u8],
    list: &mut [u8],
    work: &mut [u8],
    res: &mut [u8],
)
    requires { (Grades setup.now plan.now k) × (Standing setup.now.circuit.now setup.now.test.now work.old) × (Blank given.old.hits given.old.masks)
        × (RowRoom setup.now.circuit.now setup.now.test.now states.old) × (RowRoom setup.now.circuit.now setup.now.test.now list.old) × (ValidInputs setup.now.circuit.now setup.now.test.now 0 32768 fs.now) × (16 * fault_count fs.now ≤ length res.old) }
    ensures { res.new ≡ overwritten (grade_bytes setup.now.circuit.now setup.now.test.now fs.now plan.now k) res.old }
{
    sieve::sieve(
        setup,
        fs,
        work,
        given,
        &mut space.feed,
        &mut space.words,
        &mut space.state,
        res,
    );
    let count = fs.len() / 4;
    let mut from: usize = 0;
    // A pack takes as many open faults as it has lanes, and answers where the next begins: no range counts them.
    while from < count {
        from = batch::grade_pack(
            setup, fs, from, plan, k, given, space, states, list, work, res,
        );
    }
}

// The records of an accepted job. The two tables are for rows of state bits.
fn grade_job(
    c: &[u8],
    job: Job,
    t: &[u8],
    fs: &[u8],
    plan: &[u8],
    k: usize,
    states: &mut [u8],
    list: &mut [u8],
    work: &mut [u8],
    res: &mut [u8],
)
    requires { (GradeReady c.now t.now fs.now plan.now k (length work.old) (length res.old)) × (JobOf c.now t.now job)
        × (RowRoom c.now t.now states.old) × (RowRoom c.now t.now list.old) }
    ensures { res.new ≡ overwritten (grade_bytes c.now t.now fs.now plan.now k) res.old }
{
    let mut pins = [0u16; 16384];
    let mut flops = [0usize; 256];
    let mut outs = [0usize; 256];
    let mut given = LaneFaults {
        hits: [0; 4096],
        masks: [0; 2560],
    };
    let mut space = Space {
        feed: [0; 512],
        words: [0; 8192],
        state: [0; 512],
        pairs: [Pair { unit: 0, bit: 0 }; 32],
        row: [0; 256],
        nout: [0; 1025],
        times: [0; 12],
        extras: [0; 6144],
    };
    circuit::list_tables(c, job.lines, &mut pins, &mut flops, &mut outs);
    let setup = Setup {
        circuit: c,
        test: t,
        job,
        pins: &pins,
        flops: &flops,
        outs: &outs,
    };
    places::write_free(
        &setup,
        &GivenFaults {
            hits: &given.hits,
            masks: &given.masks,
        },
        &mut space.feed,
        &mut space.words,
        &mut space.state,
        states,
        work,
    );
    grade_list(
        &setup, fs, plan, k, &mut given, &mut space, states, list, work, res,
    );
}

// Grade with two tables of this length, long enough for every job that is accepted with this work area.
fn grade_in<const TABLE: usize>(
    circuit: &[u8],
    test: &[u8],
    faults: &[u8],
    plan: &[u8],
    k: usize,
    work: &mut [u8],
    res: &mut [u8],
) -> Outcome
    requires { (TableRoom (length work.old) TABLE) × (TABLE ≤ 262144) }
    ensures { Graded circuit.now test.now faults.now plan.now k work.old res.old work.new res.new result }
{
    let job = job::check_grade(circuit, test, faults, plan, k, work.len(), res.len())?;
    let mut states = [0u8; TABLE];
    let mut list = [0u8; TABLE];
    grade_job(
        circuit,
        job,
        test,
        faults,
        plan,
        k,
        &mut states,
        &mut list,
        work,
        res,
    );
    Ok(faults.len() / 4)
}

// A verdict record for each fault of the list; see README.md, Calls. Number 13 bounds the tables by the work area: with a small one they are small
// too, and soon cleared.
pub fn grade(
    circuit: &[u8],
    test: &[u8],
    faults: &[u8],
    plan: &[u8],
    k: usize,
    work: &mut [u8],
    res: &mut [u8],
) -> Outcome
    ensures answers { answer_of result ≡ grade_answer circuit.now test.now faults.now plan.now k (length work.old) (length res.old) }
    ensures writes { res.new ≡ grade_area circuit.now test.now faults.now plan.now k (length work.old) res.old }
    ensures keeps { work.new ≡ unless_refused (grade_refusal circuit.now test.now faults.now plan.now k (length work.old) (length res.old)) work.new work.old }
    ensures promise { Demand3 circuit.now test.now faults.now plan.now k (length work.old) res.old res.new }
{
    if work.len() <= 65536 {
        grade_in::<4096>(circuit, test, faults, plan, k, work, res)
    } else {
        grade_in::<262144>(circuit, test, faults, plan, k, work, res)
    }
}
