// The verdict of one fault, of which stage 1 has found what there is. A fault that stage 1 leaves open is given to all lanes and goes through the
// other stages alone.
#![tactic(auto)]

ghost use Rattle.std.specs.Prelude.{◌+◌, ◌*◌, ◌<◌, ◌≤◌, length};
ghost use Rattle.model.specs.Inputs.{fault_at};
ghost use Rattle.model.specs.Accepted.{ValidFault};
ghost use Rattle.faults.specs.Given.{Blank};
ghost use Rattle.stages.specs.Stages.{Grades, Standing, RowRoom};
ghost use Rattle.decide.specs.Decide.{Settled, Decided};

use plain::Firsts;
use record::Verdict;
use run::Setup;
use stages::{LaneFaults, Space};

// Fault j of the list, which stage 1 leaves open: given to all lanes for stages 2 to 6, and taken back.
fn settle(
    setup: &Setup,
    fs: &[u8],
    j: usize,
    plan: &[u8],
    k: usize,
    given: &mut LaneFaults,
    space: &mut Space,
    states: &mut [u8],
    list: &mut [u8],
    work: &mut [u8],
) -> Verdict
    requires { (Grades setup.now plan.now k) × (Standing setup.now.circuit.now setup.now.test.now work.old) × (Blank given.old.hits given.old.masks)
        × (RowRoom setup.now.circuit.now setup.now.test.now states.old) × (RowRoom setup.now.circuit.now setup.now.test.now list.old) × (4 * j + 4 ≤ length fs.now) × (ValidFault setup.now.circuit.now (fault_at fs.now j)) }
    ensures { Settled setup.now.circuit.now setup.now.test.now (fault_at fs.now j) plan.now k given.new.hits given.new.masks work.new result }
{
    let f = circuit::fault_of(fs, j);
    faults::give_all(&mut given.hits, &mut given.masks, f.line, f.pin, f.value);
    let verdict = stages::later_stages(setup, plan, k, given, space, states, list, work);
    faults::take_all(&mut given.hits, &mut given.masks, f.line, f.pin);
    verdict
}

// The verdict of fault j, of which stage 1 has found what there is: its place; or that nothing is left to show, which is stage 2's verdict.
pub fn grade_fault(
    setup: &Setup,
    fs: &[u8],
    j: usize,
    plan: &[u8],
    k: usize,
    firsts: &Firsts,
    lane: usize,
    given: &mut LaneFaults,
    space: &mut Space,
    states: &mut [u8],
    list: &mut [u8],
    work: &mut [u8],
) -> Verdict
    requires { (Grades setup.now plan.now k) × (Standing setup.now.circuit.now setup.now.test.now work.old) × (Blank given.old.hits given.old.masks)
        × (RowRoom setup.now.circuit.now setup.now.test.now states.old) × (RowRoom setup.now.circuit.now setup.now.test.now list.old) × (4 * j + 4 ≤ length fs.now) × (ValidFault setup.now.circuit.now (fault_at fs.now j)) × (lane < 64) }
    ensures { Decided setup.now.circuit.now setup.now.test.now (fault_at fs.now j) plan.now k firsts.now lane firsts.now.times firsts.now.lines
        given.new.hits given.new.masks work.new result }
{
    if tally::has_lane(firsts.found, lane) {
        return record::placed(1, firsts.times[lane], firsts.lines[lane]);
    }
    if !tally::has_lane(firsts.left, lane) {
        return record::placed(5, 0, 0);
    }
    settle(setup, fs, j, plan, k, given, space, states, list, work)
}
