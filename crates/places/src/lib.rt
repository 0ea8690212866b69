// Stage 1 of Grade: for a batch of faults, up to 64, one to a lane, with the fault-free responses that it looks at; and for one fault, beside the
// fault-free run.
#![tactic(auto)]

ghost use Rattle.std.specs.Prelude.{◌+◌, ◌*◌, ◌≤◌, length};
ghost use Rattle.model.specs.Inputs.{F, O, L, fault_at};
ghost use Rattle.faults.specs.Given.{Blank};
ghost use Rattle.run.specs.Run.{Runs};
ghost use Rattle.fault.specs.Fault.{Beside};
ghost use Rattle.stages.specs.Stages.{Standing};
ghost use Rattle.places.specs.Found.{Faults, Found};

use plain::Firsts;
use run::Setup;
use unit::GivenFaults;

// The fault-free responses, at the beginning of the work area.
pub fn write_free(
    setup: &Setup,
    given: &GivenFaults,
    feed: &mut [u64],
    words: &mut [u64],
    state: &mut [u64],
    states: &mut [u8],
    work: &mut [u8],
)
    requires { (Runs setup.now given.now.hits.now given.now.masks.now feed.old words.old state.old) × (Blank given.now.hits.now given.now.masks.now) × (length given.now.hits.now ≤ 65536)
        × (L setup.now.circuit.now setup.now.test.now * O setup.now.circuit.now + L setup.now.circuit.now setup.now.test.now * O setup.now.circuit.now ≤ length work.old) }
    ensures { Standing setup.now.circuit.now setup.now.test.now work.new }
{
    run::power_up(setup.circuit, setup.job.flops, state);
    run::write_run(setup, 0, given, feed, words, state, 0, work, states);
}

// Stage 1 of a batch over the first so many units, one fault to a lane: the lanes that have a place, whose unit and line are noted, and those
// that have something left to show.
pub fn find_places(
    setup: &Setup,
    fs: &[u8],
    from: usize,
    count: usize,
    units: usize,
    free: &[u8],
    hits: &mut [u8],
    masks: &mut [u64],
    feed: &mut [u64],
    words: &mut [u64],
    state: &mut [u64],
) -> Firsts
    requires { (Runs setup.now hits.old masks.old feed.old words.old state.old) × (Standing setup.now.circuit.now setup.now.test.now free.now) × (Blank hits.old masks.old) × (length hits.old ≤ 65536)
        × (Faults setup.now.circuit.now fs.now from count) × (units ≤ L setup.now.circuit.now setup.now.test.now) }
    ensures { (Blank hits.new masks.new) × (Found setup.now.circuit.now setup.now.test.now fs.now from count units result result.times result.lines) }
{
    faults::give_batch(fs, from, count, hits, masks);
    run::power_up(setup.circuit, setup.job.flops, state);
    let firsts = plain::first_places(
        setup,
        free,
        count,
        units,
        &GivenFaults {
            hits: &*hits,
            masks: &*masks,
        },
        feed,
        words,
        state,
    );
    faults::take_batch(fs, from, count, hits, masks);
    firsts
}

// The plain run of fault n of the list beside the fault-free one, in lanes 0 and 1: the responses of both and the fault's states. It ends where
// stage 1 gives a verdict: whether it does.
pub fn run_beside(
    setup: &Setup,
    fs: &[u8],
    n: usize,
    hits: &mut [u8],
    masks: &mut [u64],
    feed: &mut [u64],
    words: &mut [u64],
    state: &mut [u64],
    free: &mut [u8],
    faulty: &mut [u8],
    states: &mut [u8],
) -> bool
    requires { (Runs setup.now hits.old masks.old feed.old words.old state.old) × (Blank hits.old masks.old) × (length hits.old ≤ 65536) × (Faults setup.now.circuit.now fs.now n 1)
        × (L setup.now.circuit.now setup.now.test.now * O setup.now.circuit.now ≤ length free.old) × (L setup.now.circuit.now setup.now.test.now * O setup.now.circuit.now ≤ length faulty.old) × (L setup.now.circuit.now setup.now.test.now * F setup.now.circuit.now ≤ length states.old) }
    ensures { (Blank hits.new masks.new)
        × (Beside setup.now.circuit.now setup.now.test.now (fault_at fs.now n) free.new faulty.new states.new result) }
{
    faults::give_batch(fs, n, 1, hits, masks);
    run::power_up(setup.circuit, setup.job.flops, state);
    let opposed = fault::trace_beside(
        setup,
        &GivenFaults {
            hits: &*hits,
            masks: &*masks,
        },
        feed,
        words,
        state,
        free,
        faulty,
        states,
    );
    faults::take_batch(fs, n, 1, hits, masks);
    opposed
}
