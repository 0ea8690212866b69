// The list's faults behind the sieve, a pack at a time: up to 64 open faults, whose runs to the end stage 1 makes together, one to a lane. A fault's
// record is written before the next one is looked at.
#![tactic(auto)]

ghost use Rattle.std.specs.Prelude.{true, ◌≡◌, ◌*◌, ◌<◌, ◌≤◌, length};
ghost use Rattle.model.specs.Inputs.{fault_count};
ghost use Rattle.model.specs.Accepted.{ValidInputs};
ghost use Rattle.faults.specs.Given.{Blank};
ghost use Rattle.stages.specs.Stages.{Grades, Standing, RowRoom};
ghost use Rattle.sieve.specs.Sieve.{is_mark, Sieved};
ghost use Rattle.batch.specs.Batch.{Stepped, PackFound, Recorded, NextPack};

use plain::Firsts;
use run::Setup;
use stages::{LaneFaults, Space};

// Fault j's record, if it has a mark: the verdict of its lane. Which lane the next fault with a mark has.
fn write_open(
    setup: &Setup,
    fs: &[u8],
    j: usize,
    plan: &[u8],
    k: usize,
    firsts: &Firsts,
    lane: usize,
    given: &mut LaneFaults,
    space: &mut Space,
    states: &mut [u8],
    list: &mut [u8],
    work: &mut [u8],
    res: &mut [u8],
) -> usize
    requires { (Grades setup.now plan.now k) × (Standing setup.now.circuit.now setup.now.test.now work.old) × (Blank given.old.hits given.old.masks)
        × (RowRoom setup.now.circuit.now setup.now.test.now states.old) × (RowRoom setup.now.circuit.now setup.now.test.now list.old) × (ValidInputs setup.now.circuit.now setup.now.test.now 0 32768 fs.now) × (16 * fault_count fs.now ≤ length res.old)
        × (j < fault_count fs.now) × (is_mark res.old j ≡ true → lane < 64) }
    ensures { Stepped setup.now.circuit.now setup.now.test.now fs.now plan.now k j lane firsts.now firsts.now.times firsts.now.lines
        res.old given.new.hits given.new.masks work.new res.new result }
{
    let at = 16 * j;
    if res[at] != 0 {
        return lane;
    }
    let verdict = decide::grade_fault(
        setup, fs, j, plan, k, firsts, lane, given, space, states, list, work,
    );
    record::write_record(&mut res[at..], verdict);
    lane + 1
}

// The records of a pack's faults, those with a mark between `from` and `to`, of which stage 1 has found what there is: the first one in lane 0, the
// next in lane 1, and so on. Between them stand records that are finished.
fn write_pack(
    setup: &Setup,
    fs: &[u8],
    from: usize,
    to: usize,
    plan: &[u8],
    k: usize,
    firsts: &Firsts,
    given: &mut LaneFaults,
    space: &mut Space,
    states: &mut [u8],
    list: &mut [u8],
    work: &mut [u8],
    res: &mut [u8],
)
    requires { (Grades setup.now plan.now k) × (Standing setup.now.circuit.now setup.now.test.now work.old) × (Blank given.old.hits given.old.masks)
        × (RowRoom setup.now.circuit.now setup.now.test.now states.old) × (RowRoom setup.now.circuit.now setup.now.test.now list.old) × (ValidInputs setup.now.circuit.now setup.now.test.now 0 32768 fs.now) × (16 * fault_count fs.now ≤ length res.old)
        × (from ≤ to) × (to ≤ fault_count fs.now) × (Sieved setup.now.circuit.now setup.now.test.now fs.now from to res.old) × (PackFound setup.now.circuit.now setup.now.test.now fs.now res.old from to firsts.now firsts.now.times firsts.now.lines) }
    ensures { Recorded setup.now.circuit.now setup.now.test.now fs.now plan.now k from to res.old given.new.hits given.new.masks work.new res.new }
{
    let mut lane = 0;
    for j in from..to {
        lane = write_open(
            setup, fs, j, plan, k, firsts, lane, given, space, states, list, work, res,
        );
    }
}

// The pack that begins at `from`: its faults, their places by stage 1, and then their records. Where the next one begins.
pub fn grade_pack(
    setup: &Setup,
    fs: &[u8],
    from: usize,
    plan: &[u8],
    k: usize,
    given: &mut LaneFaults,
    space: &mut Space,
    states: &mut [u8],
    list: &mut [u8],
    work: &mut [u8],
    res: &mut [u8],
) -> usize
    requires { (Grades setup.now plan.now k) × (Standing setup.now.circuit.now setup.now.test.now work.old) × (Blank given.old.hits given.old.masks)
        × (RowRoom setup.now.circuit.now setup.now.test.now states.old) × (RowRoom setup.now.circuit.now setup.now.test.now list.old) × (ValidInputs setup.now.circuit.now setup.now.test.now 0 32768 fs.now) × (16 * fault_count fs.now ≤ length res.old)
        × (from ≤ fault_count fs.now) × (Sieved setup.now.circuit.now setup.now.test.now fs.now from (fault_count fs.now) res.old) }
    ensures { (NextPack from (fault_count fs.now) result) × (Recorded setup.now.circuit.now setup.now.test.now fs.now plan.now k from result res.old given.new.hits given.new.masks work.new res.new) }
{
    let mut few = [0u8; 256];
    let pack = sieve::next_pack(fs, res, from, fs.len() / 4, &mut few);
    let firsts = places::find_places(
        setup,
        &few,
        0,
        pack.size,
        setup.job.units,
        work,
        &mut given.hits,
        &mut given.masks,
        &mut space.feed,
        &mut space.words,
        &mut space.state,
    );
    write_pack(
        setup, fs, from, pack.to, plan, k, &firsts, given, space, states, list, work, res,
    );
    pack.to
}
