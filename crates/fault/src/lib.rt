// Steps of one fault's stages: its plain run, whose tables stages 2 to 5 read, and the verdict of stages 5 and 6.
#![tactic(auto)]

ghost use Rattle.std.specs.Prelude.{List, ◌≡◌, ℕ, ◌+◌, ◌*◌, ◌<◌, ◌≤◌, length};
ghost use Rattle.lists.specs.Field.{Rows};
ghost use Rattle.model.specs.Inputs.{N, F, O, L, output_lines, Fault};
ghost use Rattle.model.specs.Accepted.{ValidCircuit};
ghost use Rattle.model.specs.Grade.{grade};
ghost use Rattle.record.specs.Record.{verdict_of};
ghost use Rattle.model.specs.Simulation.{no_fault, power_up, free_outputs};
ghost use Rattle.lanes.specs.Lane.{Lane, Room};
ghost use Rattle.circuit.specs.Table.{Listed};
ghost use Rattle.unit.specs.Unit.{Stuck};
ghost use Rattle.run.specs.Run.{Runs};
ghost use Rattle.fault.specs.Fault.{Traced, ShownBoth, Beside, Concluding};

use record::Verdict;
use run::Setup;
use sequences::Endings;
use unit::GivenFaults;

// The plain run of the fault that lane 0 has: its responses behind the fault-free ones in the work area, and its states.
pub fn trace(
    setup: &Setup,
    given: &GivenFaults,
    feed: &mut [u64],
    words: &mut [u64],
    state: &mut [u64],
    states: &mut [u8],
    work: &mut [u8],
)
    requires { (Runs setup.now given.now.hits.now given.now.masks.now feed.old words.old state.old) × (L setup.now.circuit.now setup.now.test.now * F setup.now.circuit.now ≤ length states.old)
        × (L setup.now.circuit.now setup.now.test.now * O setup.now.circuit.now + L setup.now.circuit.now setup.now.test.now * O setup.now.circuit.now ≤ length work.old) × (Rows (O setup.now.circuit.now) (L setup.now.circuit.now setup.now.test.now) work.old (λ u. free_outputs setup.now.circuit.now setup.now.test.now u)) }
    ensures { Traced setup.now.circuit.now setup.now.test.now given.now.hits.now given.now.masks.now states.new work.new }
{
    run::power_up(setup.circuit, setup.job.flops, state);
    let at = setup.job.units * setup.job.outputs;
    run::write_run(
        setup,
        setup.job.flops,
        given,
        feed,
        words,
        state,
        0,
        &mut work[at..],
        states,
    );
}

// What the outputs show in lane 1 and in lane 0, one byte each, at the beginnings of two areas: whether lane 0 opposes lane 1 there.
fn show_both(
    c: &[u8],
    outs: &[usize],
    count: usize,
    given: &GivenFaults,
    words: &[u64],
    free: &mut [u8],
    faulty: &mut [u8],
) -> bool
    requires { (ValidCircuit c.now) × (Listed (output_lines c.now) outs.now) × (count ≡ O c.now) × (Room (N c.now) words.now) × (count ≤ length free.old) × (count ≤ length faulty.old) }
    ensures { ShownBoth c.now given.now.hits.now given.now.masks.now words.now free.old free.new faulty.old faulty.new result }
{
    run::write_outputs(c, outs, count, given, words, 1, free);
    run::write_outputs(c, outs, count, given, words, 0, faulty);
    let opposing = run::opposing(c, outs, count, given, words, free);
    tally::has_lane(opposing, 0)
}

// The plain run of the fault that lane 0 has beside the fault-free one, which lane 1 has, from power-up: the responses of both and the fault's
// states. It ends at the first unit at which an output opposes: whether there is one.
pub fn trace_beside(
    setup: &Setup,
    given: &GivenFaults,
    feed: &mut [u64],
    words: &mut [u64],
    state: &mut [u64],
    free: &mut [u8],
    faulty: &mut [u8],
    states: &mut [u8],
) -> bool
    requires { (Runs setup.now given.now.hits.now given.now.masks.now feed.old words.old state.old) × ((lane : ℕ) → Lane lane state.old (power_up setup.now.circuit.now))
        × (L setup.now.circuit.now setup.now.test.now * O setup.now.circuit.now ≤ length free.old) × (L setup.now.circuit.now setup.now.test.now * O setup.now.circuit.now ≤ length faulty.old) × (L setup.now.circuit.now setup.now.test.now * F setup.now.circuit.now ≤ length states.old) }
    ensures { (f : Fault) → Stuck 0 given.now.hits.now given.now.masks.now f → Stuck 1 given.now.hits.now given.now.masks.now no_fault
        → Beside setup.now.circuit.now setup.now.test.now f free.new faulty.new states.new result }
{
    for u in 0..setup.job.units {
        let place = setup.job.outputs * u;
        let row = setup.job.flops * u;
        run::values_at(
            setup.circuit,
            setup.pins,
            setup.job.lines,
            setup.job.inputs,
            setup.test,
            u,
            state,
            given,
            feed,
            words,
        );
        if show_both(
            setup.circuit,
            setup.outs,
            setup.job.outputs,
            given,
            words,
            &mut free[place..],
            &mut faulty[place..],
        ) {
            return true;
        }
        run::write_state(state, setup.job.flops, 0, &mut states[row..]);
        unit::next_state(
            setup.circuit,
            setup.flops,
            setup.job.flops,
            given,
            words,
            state,
        );
    }
    false
}

// The verdict of stages 5 and 6, once the sequences of m taken pairs are counted: where none survives 3; else by the starting states, if the
// flip-flops number at most k.
pub fn conclude(
    setup: &Setup,
    free: &[u8],
    k: usize,
    m: usize,
    ends: Endings,
    given: &GivenFaults,
    feed: &mut [u64],
    words: &mut [u64],
    state: &mut [u64],
) -> Verdict
    requires { (Runs setup.now given.now.hits.now given.now.masks.now feed.old words.old state.old) × (L setup.now.circuit.now setup.now.test.now * O setup.now.circuit.now ≤ length free.now) × (k ≤ 12) × (m ≤ 12) }
    ensures { (f : Fault) (p : List ℕ) → Concluding setup.now.circuit.now setup.now.test.now free.now given.now.hits.now given.now.masks.now p k m ends f
        → verdict_of result ≡ grade setup.now.circuit.now setup.now.test.now f p k }
{
    let pairs = m as u8;
    if ends.surviving == 0 {
        return record::counted(3, pairs, ends.differing, ends.clashing, 0, 0);
    }
    if k < setup.job.flops {
        return record::counted(7, pairs, ends.differing, ends.clashing, ends.surviving, 0);
    }
    let start = starts::lowest_never(setup, free, given, feed, words, state);
    match start {
        Some(start) => record::counted(
            6,
            pairs,
            ends.differing,
            ends.clashing,
            ends.surviving,
            start,
        ),
        None => record::counted(4, pairs, ends.differing, ends.clashing, ends.surviving, 0),
    }
}
