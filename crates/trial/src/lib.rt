// Trials of pairs of a time unit and a flip-flop, up to 32 in a word: lanes 2 p and 2 p + 1 try pair p with 0 and with 1. The pairs of a word may be
// of different units, for each lane has the inputs and the plain state of its own.
#![tactic(auto)]

ghost use Rattle.std.specs.Prelude.{true, false, cond, List, ◌≡◌, ℕ, ◌+◌, ◌*◌, ◌-◌, ◌/◌, ◌%◌, ◌<◌, ◌≤◌, eqb, leb, length};
ghost use Rattle.lists.specs.Field.{row_of};
ghost use Rattle.model.specs.Inputs.{N, I, F, O, L, flip_flops, output_lines, Fault};
ghost use Rattle.model.specs.Accepted.{ValidCircuit, ValidTest};
ghost use Rattle.model.specs.Values.{X, some_oppose};
ghost use Rattle.model.specs.Simulation.{outputs};
ghost use Rattle.lanes.specs.Lane.{bit, Holds, Lane, Room, Follows};
ghost use Rattle.circuit.specs.Table.{Listed};
ghost use Rattle.job.specs.Job.{JobOf};
ghost use Rattle.unit.specs.Unit.{Stuck};
ghost use Rattle.run.specs.Run.{Runs};
ghost use Rattle.trial.specs.Trial.{StandsAt, Carried, pair_of, tried_to, Tried, PairsOf};

use job::Job;
use lanes::Lanes;
use run::Setup;
use unit::GivenFaults;

// A pair to try: the unit before its own, where implication works, and its flip-flop.
#[derive(Clone, Copy)]
pub struct Pair {
    pub unit: usize,
    pub bit: usize,
}

// The lanes of the pairs from p on.
fn lanes_from(p: usize) -> u64
    requires { p < 32 }
    ensures { (t : ℕ) → t < 64 → bit t result ≡ leb p (t / 2) }
{
    tally::take_out(u64::MAX, tally::first_lanes(2 * p))
}

// Whether pair p is of another unit than the pair before it.
fn begins(pairs: &[Pair], p: usize) -> bool
    requires { p < length pairs.now }
    ensures { result ≡ false → (0 < p) × ((pair_of pairs.now p).unit ≡ (pair_of pairs.now (p - 1)).unit) }
{
    p == 0 || pairs[p].unit != pairs[p - 1].unit
}

// The lanes wanted get the inputs and the plain state of unit v.
fn load_unit(
    job: Job,
    t: &[u8],
    states: &[u8],
    v: usize,
    wanted: u64,
    feed: &mut [u64],
    state: &mut [u64],
)
    requires { (job.inputs * v + job.inputs ≤ length t.now) × (job.flops * v + job.flops ≤ length states.now) × (Room job.inputs feed.old) × (Room job.flops state.old) }
    ensures { (lane u : ℕ) → lane < 64 → (bit lane wanted ≡ true → u ≡ v)
        → (bit lane wanted ≡ false → StandsAt lane job.inputs job.flops t.now states.now feed.old state.old u)
        → StandsAt lane job.inputs job.flops t.now states.now feed.new state.new u }
{
    let from = job.inputs * v;
    let to = from + job.inputs;
    run::load_row(&t[from..to], job.inputs, wanted, feed);
    let from = job.flops * v;
    let to = from + job.flops;
    run::load_row(&states[from..to], job.flops, wanted, state);
}

// Pair p's unit in its lanes and all above, where they do not have it already.
fn load_pair(
    job: Job,
    t: &[u8],
    states: &[u8],
    pairs: &[Pair],
    p: usize,
    feed: &mut [u64],
    state: &mut [u64],
)
    requires { (p < 32) × (p < length pairs.now) × (job.inputs * (pair_of pairs.now p).unit + job.inputs ≤ length t.now) × (job.flops * (pair_of pairs.now p).unit + job.flops ≤ length states.now)
        × (Room job.inputs feed.old) × (Room job.flops state.old) }
    ensures { Carried p pairs.now (λ lane v. StandsAt lane job.inputs job.flops t.now states.now feed.old state.old v)
        → Carried (p + 1) pairs.now (λ lane v. StandsAt lane job.inputs job.flops t.now states.now feed.new state.new v) }
{
    if !begins(pairs, p) {
        return;
    }
    load_unit(job, t, states, pairs[p].unit, lanes_from(p), feed, state);
}

// Each lane gets the inputs and the plain state of its pair's unit.
fn load_pairs(
    c: &[u8],
    job: Job,
    t: &[u8],
    states: &[u8],
    pairs: &[Pair],
    feed: &mut [u64],
    state: &mut [u64],
)
    requires { (ValidTest c.now t.now) × (JobOf c.now t.now job) × (PairsOf c.now t.now pairs.now) × (L c.now t.now * F c.now ≤ length states.now)
        × (Room (I c.now) feed.old) × (Room (F c.now) state.old) }
    ensures { Carried (length pairs.now) pairs.now (λ lane v. StandsAt lane (I c.now) (F c.now) t.now states.now feed.new state.new v) }
{
    for p in 0..pairs.len() {
        load_pair(job, t, states, pairs, p, feed, state);
    }
}

// 0 in lane 2 p and 1 in lane 2 p + 1.
fn both_values(p: usize) -> Lanes
    requires { p < 32 }
    ensures { (t : ℕ) → t < 64 → Holds t result (cond (eqb (t / 2) p) (t % 2) X) }
{
    Lanes::X.with(2 * p, 0).with(2 * p + 1, 1)
}

// The pin line of pair p's flip-flop is given 0 and 1 in the pair's lanes.
fn give_pair(c: &[u8], flops: &[usize], pairs: &[Pair], p: usize, words: &mut [u64])
    requires { (ValidCircuit c.now) × (Listed (flip_flops c.now) flops.now) × (p < 32) × (p < length pairs.now) × ((pair_of pairs.now p).bit < F c.now) × (Room (N c.now) words.old) }
    ensures { (lane : ℕ) (vs : List ℕ) → lane < 64 → length vs ≡ N c.now → Follows lane words.old (tried_to c.now pairs.now p lane vs)
        → Follows lane words.new (tried_to c.now pairs.now (p + 1) lane vs) }
{
    let n = flops[pairs[p].bit];
    let m = circuit::pin_of(c, n, 1);
    let x = lanes::read(words, m).give(both_values(p));
    lanes::store(words, m, x);
}

// The pin line of each pair's flip-flop is given 0 and 1 in the pair's lanes.
fn give_pairs(c: &[u8], t: &[u8], flops: &[usize], pairs: &[Pair], words: &mut [u64])
    requires { (ValidCircuit c.now) × (Listed (flip_flops c.now) flops.now) × (PairsOf c.now t.now pairs.now) × (Room (N c.now) words.old) }
    ensures { (lane : ℕ) (vs : List ℕ) → lane < 64 → length vs ≡ N c.now → Follows lane words.old vs
        → Follows lane words.new (tried_to c.now pairs.now (length pairs.now) lane vs) }
{
    for p in 0..pairs.len() {
        give_pair(c, flops, pairs, p, words);
    }
}

// The lanes found, with those of pair p and all above as the responses of its unit have them.
fn opposing_pair(
    c: &[u8],
    outs: &[usize],
    count: usize,
    given: &GivenFaults,
    words: &[u64],
    free: &[u8],
    pairs: &[Pair],
    p: usize,
    found: u64,
) -> u64
    requires { (ValidCircuit c.now) × (Listed (output_lines c.now) outs.now) × (count ≡ O c.now) × (Room (N c.now) words.now) × (p < 32) × (p < length pairs.now)
        × (count * (pair_of pairs.now p).unit + count ≤ length free.now) }
    ensures { (f : Fault) (vs : ℕ → List ℕ) → ((lane : ℕ) → lane < 64 → Stuck lane given.now.hits.now given.now.masks.now f) → ((lane : ℕ) → length (vs lane) ≡ N c.now)
        → Carried p pairs.now (λ lane v. Lane lane words.now (vs lane) → bit lane found ≡ some_oppose (row_of (O c.now) free.now v) (outputs c.now f (vs lane)))
        → Carried (p + 1) pairs.now (λ lane v. Lane lane words.now (vs lane) → bit lane result ≡ some_oppose (row_of (O c.now) free.now v) (outputs c.now f (vs lane))) }
{
    if !begins(pairs, p) {
        return found;
    }
    let at = count * pairs[p].unit;
    let to = at + count;
    let more = run::opposing(c, outs, count, given, words, &free[at..to]);
    let wanted = lanes_from(p);
    tally::take_out(found, wanted) | (more & wanted)
}

// The lanes in which an output opposes the responses of the unit of the lane's pair.
fn opposing_pairs(
    c: &[u8],
    job: Job,
    t: &[u8],
    outs: &[usize],
    given: &GivenFaults,
    words: &[u64],
    free: &[u8],
    pairs: &[Pair],
) -> u64
    requires { (ValidCircuit c.now) × (ValidTest c.now t.now) × (JobOf c.now t.now job) × (Listed (output_lines c.now) outs.now) × (Room (N c.now) words.now)
        × (PairsOf c.now t.now pairs.now) × (L c.now t.now * O c.now ≤ length free.now) }
    ensures { (f : Fault) (vs : ℕ → List ℕ) → ((lane : ℕ) → lane < 64 → Stuck lane given.now.hits.now given.now.masks.now f) → ((lane : ℕ) → length (vs lane) ≡ N c.now)
        → Carried (length pairs.now) pairs.now (λ lane v. Lane lane words.now (vs lane) → bit lane result ≡ some_oppose (row_of (O c.now) free.now v) (outputs c.now f (vs lane))) }
{
    let mut found: u64 = 0;
    for p in 0..pairs.len() {
        found = opposing_pair(c, outs, job.outputs, given, words, free, pairs, p, found);
    }
    found
}

// Both trials of each pair: the lanes that are marked.
pub fn try_pairs(
    setup: &Setup,
    free: &[u8],
    states: &[u8],
    pairs: &[Pair],
    given: &GivenFaults,
    feed: &mut [u64],
    words: &mut [u64],
    state: &mut [u64],
) -> u64
    requires { (Runs setup.now given.now.hits.now given.now.masks.now feed.old words.old state.old) × (PairsOf setup.now.circuit.now setup.now.test.now pairs.now)
        × (L setup.now.circuit.now setup.now.test.now * O setup.now.circuit.now ≤ length free.now) × (L setup.now.circuit.now setup.now.test.now * F setup.now.circuit.now ≤ length states.now) }
    ensures { Tried setup.now.circuit.now setup.now.test.now free.now states.now pairs.now given.now.hits.now given.now.masks.now result words.new }
{
    load_pairs(
        setup.circuit,
        setup.job,
        setup.test,
        states,
        pairs,
        feed,
        state,
    );
    unit::simulate_unit(
        setup.circuit,
        setup.pins,
        setup.job.lines,
        feed,
        state,
        given,
        words,
    );
    give_pairs(setup.circuit, setup.test, setup.flops, pairs, words);
    let clashing = imply::imply(setup.circuit, setup.pins, given, words, setup.job.lines);
    let opposing = opposing_pairs(
        setup.circuit,
        setup.job,
        setup.test,
        setup.outs,
        given,
        words,
        free,
        pairs,
    );
    clashing | opposing
}
