// The call Simulate: the plain responses of a circuit, with at most one fault, to a test.
#![tactic(auto)]

ghost use Rattle.std.specs.Prelude.{◌≡◌, ◌*◌, ◌<◌, ◌≤◌, length};
ghost use Rattle.lists.specs.Field.{overwritten};
ghost use Rattle.model.specs.Inputs.{O, L, fault_at, fault_count};
ghost use Rattle.model.specs.Accepted.{ValidInputs};
ghost use Rattle.model.specs.Simulate.{only_fault, simulate_bytes, simulate_answer, simulate_area};
ghost use Rattle.faults.specs.Given.{Blank};
ghost use Rattle.job.specs.Job.{answer_of, JobOf};
ghost use Rattle.unit.specs.Unit.{Stuck, MaskRoom};

use job::{Job, Outcome};
use rules::Refusal;
use run::Setup;
use unit::GivenFaults;

// The fault of the list, if there is one, in all lanes.
fn give_only(fs: &[u8], hits: &mut [u8], masks: &mut [u64])
    requires { (Blank hits.old masks.old) × (length hits.old ≤ 65536) × (MaskRoom masks.old)
        × (0 < fault_count fs.now → ((fault_at fs.now 0).line < length hits.old) × ((fault_at fs.now 0).pin < 5) × ((fault_at fs.now 0).value < 2)) }
    ensures { Stuck 0 hits.new masks.new (only_fault fs.now) }
{
    if 4 <= fs.len() {
        let f = circuit::fault_of(fs, 0);
        faults::give_all(hits, masks, f.line, f.pin, f.value);
    }
}

// The responses of an accepted job.
fn respond(c: &[u8], job: Job, t: &[u8], fs: &[u8], res: &mut [u8])
    requires { (ValidInputs c.now t.now 0 1 fs.now) × (JobOf c.now t.now job) × (L c.now t.now * O c.now ≤ length res.old) }
    ensures { res.new ≡ overwritten (simulate_bytes c.now t.now fs.now) res.old }
{
    let mut pins = [0u16; 16384];
    let mut flops = [0usize; 256];
    let mut outs = [0usize; 256];
    let mut hits = [0u8; 4096];
    let mut masks = [0u64; 2560];
    let mut feed = [0u64; 512];
    let mut words = [0u64; 8192];
    let mut state = [0u64; 512];
    let mut none = [0u8; 1];
    circuit::list_tables(c, job.lines, &mut pins, &mut flops, &mut outs);
    give_only(fs, &mut hits, &mut masks);
    run::power_up(c, job.flops, &mut state);
    let setup = Setup {
        circuit: c,
        test: t,
        job,
        pins: &pins,
        flops: &flops,
        outs: &outs,
    };
    run::write_run(
        &setup,
        0,
        &GivenFaults {
            hits: &hits,
            masks: &masks,
        },
        &mut feed,
        &mut words,
        &mut state,
        0,
        res,
        &mut none,
    );
}

// What the outputs show, unit by unit; see README.md, Calls.
pub fn simulate(
    circuit: &[u8],
    test: &[u8],
    faults: &[u8],
    work: &mut [u8],
    res: &mut [u8],
) -> Outcome
    ensures answers { answer_of result ≡ simulate_answer circuit.now test.now faults.now (length work.old) (length res.old) }
    ensures writes { res.new ≡ simulate_area circuit.now test.now faults.now (length work.old) res.old }
    ensures keeps { work.new ≡ work.old }
{
    // A match and no `?`, so that the edit `position_lost` can change the position alone.
    match job::check_simulate(circuit, test, faults, work.len(), res.len()) {
        Ok(job) => {
            respond(circuit, job, test, faults, res);
            Ok(job.units * job.outputs)
        }
        Err(Refusal { rule, at }) => Err(Refusal { rule, at }),
    }
}
