// Stage 6 of Grade: starting states from number 0 up, 64 at a time, until one never differs. Lane l of a block is the run of the starting
// state base + l, and the lowest of the lanes in which no output ever opposes is the answer.
#![tactic(auto)]

ghost use Rattle.std.specs.Prelude.{not, ◌&&◌, ◌≡◌, ℕ, ◌+◌, ◌*◌, ◌<◌, ◌≤◌, ◌%◌, ltb, length};
ghost use Rattle.lists.specs.Field.{Rows};
ghost use Rattle.model.specs.Inputs.{F, O, L, Fault};
ghost use Rattle.model.specs.Simulation.{free_outputs};
ghost use Rattle.model.specs.Starts.{bits, differs};
ghost use Rattle.lanes.specs.Lane.{bit, Lane, Room};
ghost use Rattle.unit.specs.Unit.{Stuck};
ghost use Rattle.run.specs.Run.{Runs};
ghost use Rattle.starts.specs.Starts.{FirstNever};

use run::Setup;
use unit::GivenFaults;

// The first so many bits of the number that a lane stands for, bit i at place i, in each lane.
fn load_starts(base: usize, count: usize, state: &mut [u64])
    requires { (base % 64 ≡ 0) × (count ≤ 64) × (Room count state.old) }
    ensures { (lane : ℕ) → lane < 64 → Lane lane state.new (bits count (base + lane)) }
{
    for i in 0..count {
        lanes::store(state, i, tally::numbered(base, i));
    }
}

// The lanes whose starting state, one of those left from base on, never differs.
fn never_differing(
    setup: &Setup,
    free: &[u8],
    base: usize,
    left: usize,
    given: &GivenFaults,
    feed: &mut [u64],
    words: &mut [u64],
    state: &mut [u64],
) -> u64
    requires { (Runs setup.now given.now.hits.now given.now.masks.now feed.old words.old state.old) × (F setup.now.circuit.now ≤ 12) × (L setup.now.circuit.now setup.now.test.now * O setup.now.circuit.now ≤ length free.now) × (base % 64 ≡ 0) }
    ensures { (lane : ℕ) (f : Fault) → Stuck lane given.now.hits.now given.now.masks.now f → Rows (O setup.now.circuit.now) (L setup.now.circuit.now setup.now.test.now) free.now (free_outputs setup.now.circuit.now setup.now.test.now)
        → bit lane result ≡ (ltb lane left && not (differs setup.now.circuit.now setup.now.test.now f (base + lane))) }
{
    load_starts(base, setup.job.flops, state);
    let wanted = tally::first_lanes(left);
    let differing = run::opposing_ever(
        setup,
        setup.job.units,
        free,
        wanted,
        given,
        feed,
        words,
        state,
    );
    tally::take_out(wanted, differing)
}

// The lowest starting state that never differs, with the fault that all lanes have.
pub fn lowest_never(
    setup: &Setup,
    free: &[u8],
    given: &GivenFaults,
    feed: &mut [u64],
    words: &mut [u64],
    state: &mut [u64],
) -> Option<usize>
    requires { (Runs setup.now given.now.hits.now given.now.masks.now feed.old words.old state.old) × (F setup.now.circuit.now ≤ 12) × (L setup.now.circuit.now setup.now.test.now * O setup.now.circuit.now ≤ length free.now) }
    ensures { FirstNever setup.now.circuit.now setup.now.test.now free.now given.now.hits.now given.now.masks.now result }
{
    let starts: usize = 1 << setup.job.flops;
    for base in (0..starts).step_by(64) {
        let never = never_differing(setup, free, base, starts - base, given, feed, words, state);
        if let Some(lane) = tally::lowest(never) {
            return Some(base + lane);
        }
    }
    None
}
