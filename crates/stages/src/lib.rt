// Stages 2 to 6 of a fault that all lanes have and that stage 1 left open. They go in order, and the first that gives a verdict ends the fault's
// work.
#![tactic(auto)]

ghost use Rattle.std.proofs.Math.Option.{none};
ghost use Rattle.std.specs.Prelude.{◌≡◌, ◌*◌, ◌/◌, ◌%◌, ◌<◌, ◌≤◌, length, get_or};
ghost use Rattle.model.specs.Inputs.{O, L, Fault};
ghost use Rattle.model.specs.Grade.{placed, before_stage5, grade};
ghost use Rattle.record.specs.Record.{verdict_of};
ghost use Rattle.run.specs.Run.{Runs};
ghost use Rattle.take.specs.Take.{Prepared};
ghost use Rattle.stages.specs.Stages.{Grades, Standing, RowRoom, OpenFrom, Deciding, Middling, Graded};

use expand::Walk;
use job::Job;
use record::Verdict;
use run::Setup;
use trial::Pair;
use unit::GivenFaults;

// The 32 pairs of a word.
pub type Trials = [Pair; 32];

// A row of state bits.
pub type Row = [u8; 256];

// Of up to 12 taken pairs the unit.
pub type Times = [usize; 12];

// The faults in the lanes: a byte a line, and 256 rows of five masks, two words each.
#[derive(Clone, Copy)]
pub struct LaneFaults {
    pub hits: [u8; 4096],
    pub masks: [u64; 2560],
}

// What a call makes once and lends to every stage of every fault: two words for each input, line and flip-flop; the pairs of a word; a row; Nout of
// every unit and behind the last; and of the taken pairs units and extras.
#[derive(Clone, Copy)]
pub struct Space {
    pub feed: [u64; 512],
    pub words: [u64; 8192],
    pub state: [u64; 512],
    pub pairs: Trials,
    pub row: Row,
    pub nout: [usize; 1025],
    pub times: Times,
    pub extras: [u8; 6144],
}

// What stages 2 to 4 come to.
#[derive(Clone, Copy)]
pub enum Middle {
    // Nout is 0 at every unit: nothing is left to show.
    Nothing,
    // The position of the pair that gives verdict 2.
    Decided(usize),
    // They give no verdict, and Nout is above 0 at so many units.
    Open(usize),
}

// How many units there are before the first with Nout 0, from the responses without and with the fault. How many places were compared for it,
// L × O, nobody asks here.
fn open_units(job: Job, free: &[u8], faulty: &[u8], nout: &mut [usize]) -> usize
    requires { (job.units ≤ 1024) × (job.outputs ≤ 256) × (job.units * job.outputs ≤ length free.now) × (job.units * job.outputs ≤ length faulty.now) × (job.units < length nout.old) }
    ensures { OpenFrom job free.now faulty.now nout.new result }
{
    pending::outstanding(job.units, job.outputs, free, faulty, nout);
    pending::open_units(job.units, nout)
}

// The position of the pair that gives verdict 2: stage 3's, or else stage 4's.
fn deciding(walk: Walk) -> Option<usize>
    ensures { Deciding walk result }
{
    walk.both.or(walk.opposed)
}

// Verdict 2, with the unit and the flip-flop's line of the pair at position e.
fn at_pair(size: usize, flops: &[usize], e: usize) -> Verdict
    requires { (0 < size) × (size ≤ length flops.now) }
    ensures { verdict_of result ≡ placed 2 (e / size) (get_or flops.now (e % size) 0) }
{
    record::placed(2, e / size, flops[e % size])
}

// Stages 5 and 6: the plan's pairs that are taken, how their sequences end, and the verdict.
fn last_stages(
    setup: &Setup,
    free: &[u8],
    states: &[u8],
    list: &[u8],
    left: usize,
    plan: &[u8],
    k: usize,
    given: &LaneFaults,
    space: &mut Space,
) -> Verdict
    requires { (Grades setup.now plan.now k) × (L setup.now.circuit.now setup.now.test.now * O setup.now.circuit.now ≤ length free.now)
        × (RowRoom setup.now.circuit.now setup.now.test.now states.now) × (RowRoom setup.now.circuit.now setup.now.test.now list.now) }
    ensures { (f : Fault) → Prepared setup.now.circuit.now setup.now.test.now free.now states.now list.now given.now.hits given.now.masks left f
        → before_stage5 setup.now.circuit.now setup.now.test.now f ≡ none → verdict_of result ≡ grade setup.now.circuit.now setup.now.test.now f plan.now k }
{
    let m = take::take_pairs(
        setup,
        free,
        states,
        list,
        left,
        plan,
        k,
        &GivenFaults {
            hits: &given.hits,
            masks: &given.masks,
        },
        &mut space.feed,
        &mut space.words,
        &mut space.state,
        &mut space.times,
        &mut space.extras,
    );
    let ends = sequences::count_endings(
        setup,
        free,
        list,
        &space.times,
        &space.extras,
        m,
        &GivenFaults {
            hits: &given.hits,
            masks: &given.masks,
        },
        &mut space.feed,
        &mut space.words,
        &mut space.state,
    );
    fault::conclude(
        setup,
        free,
        k,
        m,
        ends,
        &GivenFaults {
            hits: &given.hits,
            masks: &given.masks,
        },
        &mut space.feed,
        &mut space.words,
        &mut space.state,
    )
}

// Stages 2 to 4, from the tables of the fault's plain run: the responses without and with the fault, and the states.
pub fn middle_stages(
    setup: &Setup,
    free: &[u8],
    faulty: &[u8],
    states: &[u8],
    given: &GivenFaults,
    feed: &mut [u64],
    words: &mut [u64],
    state: &mut [u64],
    pairs: &mut Trials,
    row: &mut Row,
    list: &mut [u8],
    nout: &mut [usize],
) -> Middle
    requires { (Runs setup.now given.now.hits.now given.now.masks.now feed.old words.old state.old)
        × (L setup.now.circuit.now setup.now.test.now * O setup.now.circuit.now ≤ length free.now) × (L setup.now.circuit.now setup.now.test.now * O setup.now.circuit.now ≤ length faulty.now)
        × (RowRoom setup.now.circuit.now setup.now.test.now states.now) × (RowRoom setup.now.circuit.now setup.now.test.now list.old) × (L setup.now.circuit.now setup.now.test.now < length nout.old) }
    ensures { Middling setup.now.circuit.now setup.now.test.now free.now faulty.now states.now list.new given.now.hits.now given.now.masks.now nout.new result }
{
    let left = open_units(setup.job, free, faulty, nout);
    if left == 0 {
        return Middle::Nothing;
    }
    let walk = expand::expand(
        setup, free, states, left, given, feed, words, state, pairs, row, list,
    );
    match deciding(walk) {
        Some(e) => Middle::Decided(e),
        None => Middle::Open(left),
    }
}

// The verdict of stages 2 to 6. The work area begins with the fault-free responses, and still does afterwards; behind them it then has the fault's.
pub fn later_stages(
    setup: &Setup,
    plan: &[u8],
    k: usize,
    given: &LaneFaults,
    space: &mut Space,
    states: &mut [u8],
    list: &mut [u8],
    work: &mut [u8],
) -> Verdict
    requires { (Grades setup.now plan.now k) × (Standing setup.now.circuit.now setup.now.test.now work.old)
        × (RowRoom setup.now.circuit.now setup.now.test.now states.old) × (RowRoom setup.now.circuit.now setup.now.test.now list.old) }
    ensures { Graded setup.now.circuit.now setup.now.test.now plan.now k given.now.hits given.now.masks work.new result }
{
    fault::trace(
        setup,
        &GivenFaults {
            hits: &given.hits,
            masks: &given.masks,
        },
        &mut space.feed,
        &mut space.words,
        &mut space.state,
        states,
        work,
    );
    let at = setup.job.units * setup.job.outputs;
    let responses = &work[..];
    let middle = middle_stages(
        setup,
        responses,
        &responses[at..],
        states,
        &GivenFaults {
            hits: &given.hits,
            masks: &given.masks,
        },
        &mut space.feed,
        &mut space.words,
        &mut space.state,
        &mut space.pairs,
        &mut space.row,
        list,
        &mut space.nout,
    );
    match middle {
        Middle::Nothing => record::placed(5, 0, 0),
        Middle::Decided(e) => at_pair(setup.job.flops, setup.flops, e),
        Middle::Open(left) => last_stages(setup, work, states, list, left, plan, k, given, space),
    }
}
