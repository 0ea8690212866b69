// The call Choose: up to k pairs for a plan. What it works in is cleared first, so the arrays have one of three lengths, by the job.
#![tactic(auto)]

ghost use Rattle.std.specs.Prelude.{true, ◌≡◌, length};
ghost use Rattle.model.specs.Inputs.{fault_at};
ghost use Rattle.model.specs.Accepted.{ChooseReady};
ghost use Rattle.model.specs.Refusals.{choose_refusal, unless_refused};
ghost use Rattle.model.specs.Choose.{chosen, choose_answer, choose_area};
ghost use Rattle.model.specs.Promises.{ChoosesWell};
ghost use Rattle.job.specs.Job.{answer_of, JobOf};
ghost use Rattle.pick.specs.Pick.{Records};
ghost use Rattle.choose.specs.Room.{RoomFor, Short, ShortTables};

use job::{Job, Outcome};
use run::Setup;

// The records of a job, in arrays of these lengths: how many there are.
fn choose_in<
    const LINES: usize,
    const PINS: usize,
    const WORDS: usize,
    const BITS: usize,
    const TABLE: usize,
    const UNITS: usize,
    const EXTRAS: usize,
>(c: &[u8], job: Job, t: &[u8], fs: &[u8], k: usize, work: &mut [u8], res: &mut [u8]) -> usize
    requires { (ChooseReady c.now t.now fs.now k (length work.old) (length res.old)) × (JobOf c.now t.now job) × (RoomFor job LINES PINS WORDS BITS TABLE UNITS EXTRAS) }
    ensures { Records (chosen c.now t.now (fault_at fs.now 0) k) res.old res.new result }
{
    let mut pins = [0u16; PINS];
    let mut flops = [0usize; 256];
    let mut outs = [0usize; 256];
    let mut hits = [0u8; LINES];
    let mut masks = [0u64; 2560];
    let mut feed = [0u64; BITS];
    let mut words = [0u64; WORDS];
    let mut state = [0u64; BITS];
    let mut free = [0u8; TABLE];
    let mut states = [0u8; TABLE];
    let mut list = [0u8; TABLE];
    let mut nout = [0usize; UNITS];
    let mut merits = [0usize; UNITS];
    let mut extras = [0u8; EXTRAS];
    circuit::list_tables(c, job.lines, &mut pins, &mut flops, &mut outs);
    let setup = Setup {
        circuit: c,
        test: t,
        job,
        pins: &pins,
        flops: &flops,
        outs: &outs,
    };
    propose::propose(
        &setup,
        fs,
        k,
        &mut hits,
        &mut masks,
        &mut feed,
        &mut words,
        &mut state,
        &mut free,
        &mut states,
        &mut list,
        &mut nout,
        &mut merits,
        &mut extras,
        work,
        res,
    )
}

// The records of a short job.
fn choose_short(
    c: &[u8],
    job: Job,
    t: &[u8],
    fs: &[u8],
    k: usize,
    work: &mut [u8],
    res: &mut [u8],
) -> usize
    requires { (ChooseReady c.now t.now fs.now k (length work.old) (length res.old)) × (JobOf c.now t.now job) × (Short job) }
    ensures { Records (chosen c.now t.now (fault_at fs.now 0) k) res.old res.new result }
{
    choose_in::<128, 512, 256, 64, 512, 17, 768>(c, job, t, fs, k, work, res)
}

// The records of a job whose tables are short.
fn choose_middle(
    c: &[u8],
    job: Job,
    t: &[u8],
    fs: &[u8],
    k: usize,
    work: &mut [u8],
    res: &mut [u8],
) -> usize
    requires { (ChooseReady c.now t.now fs.now k (length work.old) (length res.old)) × (JobOf c.now t.now job) × (ShortTables job) }
    ensures { Records (chosen c.now t.now (fault_at fs.now 0) k) res.old res.new result }
{
    choose_in::<4096, 16384, 8192, 512, 4096, 1025, 6144>(c, job, t, fs, k, work, res)
}

// The records of any job.
fn choose_long(
    c: &[u8],
    job: Job,
    t: &[u8],
    fs: &[u8],
    k: usize,
    work: &mut [u8],
    res: &mut [u8],
) -> usize
    requires { (ChooseReady c.now t.now fs.now k (length work.old) (length res.old)) × (JobOf c.now t.now job) }
    ensures { Records (chosen c.now t.now (fault_at fs.now 0) k) res.old res.new result }
{
    choose_in::<4096, 16384, 8192, 512, 262144, 1025, 6144>(c, job, t, fs, k, work, res)
}

// A job that the shortest arrays have room for.
fn is_short(job: Job) -> bool
    ensures { result ≡ true → Short job }
{
    job.lines <= 128 && job.inputs <= 32 && job.flops <= 32 && job.outputs <= 32 && job.units <= 16
}

// The records of an accepted job: how many there are. The longest arrays are asked for at two places, so that the compiler leaves them a frame of
// their own, whose pages no other job then touches.
fn choose_job(
    c: &[u8],
    job: Job,
    t: &[u8],
    fs: &[u8],
    k: usize,
    work: &mut [u8],
    res: &mut [u8],
) -> usize
    requires { (ChooseReady c.now t.now fs.now k (length work.old) (length res.old)) × (JobOf c.now t.now job) }
    ensures { Records (chosen c.now t.now (fault_at fs.now 0) k) res.old res.new result }
{
    if is_short(job) {
        return choose_short(c, job, t, fs, k, work, res);
    }
    if job.units * job.flops > 4096 {
        return choose_long(c, job, t, fs, k, work, res);
    }
    if job.units * job.outputs > 4096 {
        return choose_long(c, job, t, fs, k, work, res);
    }
    choose_middle(c, job, t, fs, k, work, res)
}

// Up to k plan records for the list's one fault; see README.md, Calls.
pub fn choose(
    circuit: &[u8],
    test: &[u8],
    faults: &[u8],
    k: usize,
    work: &mut [u8],
    res: &mut [u8],
) -> Outcome
    ensures answers { answer_of result ≡ choose_answer circuit.now test.now faults.now k (length work.old) (length res.old) }
    ensures writes { res.new ≡ choose_area circuit.now test.now faults.now k (length work.old) res.old }
    ensures keeps { work.new ≡ unless_refused (choose_refusal circuit.now test.now faults.now k (length work.old) (length res.old)) work.new work.old }
    ensures promise { ChoosesWell circuit.now test.now faults.now k (answer_of result) res.new }
{
    let job = job::check_choose(circuit, test, faults, k, work.len(), res.len())?;
    Ok(choose_job(circuit, job, test, faults, k, work, res))
}
