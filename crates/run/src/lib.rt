// Runs of a test in 64 lanes, unit by unit: what a lane shows, as tables in a lent area, and the lanes in which an output opposes.
#![tactic(auto)]

ghost use Rattle.std.specs.Prelude.{true, false, ◌&&◌, List, ◌≡◌, ℕ, ◌+◌, ◌*◌, ◌<◌, ◌≤◌, length, take};
ghost use Rattle.lists.specs.Scan.{any_below, gather};
ghost use Rattle.lists.specs.Field.{overwritten, row_of};
ghost use Rattle.model.specs.Inputs.{N, I, F, O, L, output_lines, inputs_at, Fault};
ghost use Rattle.model.specs.Accepted.{ValidCircuit, ThreeValued};
ghost use Rattle.model.specs.Values.{some_oppose};
ghost use Rattle.model.specs.Simulation.{power_up, line_values, outputs, state_at, outputs_at};
ghost use Rattle.lanes.specs.Lane.{bit, Lane, Room};
ghost use Rattle.circuit.specs.Table.{Listed, PinTable};
ghost use Rattle.unit.specs.Unit.{Stuck, MaskRoom};
ghost use Rattle.run.specs.Run.{Runs};

use job::Job;
use lanes::Lanes;
use unit::GivenFaults;

// What every run of a job reads: the circuit, the test and their sizes, and the circuit's tables of pins, flip-flops and outputs.
#[derive(Clone, Copy)]
pub struct Setup<'a> {
    pub circuit: &'a [u8],
    pub test: &'a [u8],
    pub job: Job,
    pub pins: &'a [u16],
    pub flops: &'a [usize],
    pub outs: &'a [usize],
}

// All lanes.
pub const ALL: u64 = u64::MAX;

// The values of a row, a byte each, in the lanes wanted, at the first places; all other lanes keep theirs.
pub fn load_row(row: &[u8], count: usize, wanted: u64, words: &mut [u64])
    requires { (count ≤ length row.now) × (Room count words.old) }
    ensures { (lane : ℕ) (vs : List ℕ) → lane < 64 → (bit lane wanted ≡ true → vs ≡ take count row.now) → (bit lane wanted ≡ false → Lane lane words.old vs) → Lane lane words.new vs }
{
    for i in 0..count {
        let x = lanes::read(words, i).merge(wanted, Lanes::all(row[i]));
        lanes::store(words, i, x);
    }
}

// The values of all lines at unit u of a test, from the state there; `feed` is for the inputs.
pub fn values_at(
    c: &[u8],
    pins: &[u16],
    lines: usize,
    inputs: usize,
    t: &[u8],
    u: usize,
    state: &[u64],
    given: &GivenFaults,
    feed: &mut [u64],
    words: &mut [u64],
)
    requires { (ValidCircuit c.now) × (PinTable c.now pins.now) × (lines ≡ N c.now) × (inputs ≡ I c.now) × (inputs * u + inputs ≤ length t.now) × (lines ≤ length given.now.hits.now)
        × (MaskRoom given.now.masks.now) × (Room inputs feed.old) × (Room lines words.old) × (Room (F c.now) state.now) }
    ensures { (lane : ℕ) (f : Fault) (st : List ℕ) → Stuck lane given.now.hits.now given.now.masks.now f → Lane lane state.now st → length st ≡ F c.now
        → Lane lane words.new (line_values c.now f (inputs_at c.now t.now u) st) }
{
    let at = inputs * u;
    let to = at + inputs;
    load_row(&t[at..to], inputs, ALL, feed);
    unit::simulate_unit(c, pins, lines, feed, state, given, words);
}

// Every flip-flop at X, in all lanes.
pub fn power_up(c: &[u8], count: usize, state: &mut [u64])
    requires { (count ≡ F c.now) × (Room count state.old) }
    ensures { (lane : ℕ) → Lane lane state.new (power_up c.now) }
{
    for s in 0..count {
        lanes::store(state, s, Lanes::X);
    }
}

// What the outputs, whose lines `outs` lists, show in a lane, one byte each, at the area's beginning.
pub fn write_outputs(
    c: &[u8],
    outs: &[usize],
    count: usize,
    given: &GivenFaults,
    words: &[u64],
    lane: usize,
    area: &mut [u8],
)
    requires { (ValidCircuit c.now) × (Listed (output_lines c.now) outs.now) × (count ≡ O c.now) × (Room (N c.now) words.now) × (lane < 64) × (count ≤ length area.old) }
    ensures { (f : Fault) (vs : List ℕ) → Stuck lane given.now.hits.now given.now.masks.now f → Lane lane words.now vs → length vs ≡ N c.now → ThreeValued vs
        → area.new ≡ overwritten (outputs c.now f vs) area.old }
{
    for o in 0..count {
        let x = lanes::read(words, outs[o]);
        area[o] = x.lane(lane);
    }
}

// The first so many bits of the state in a lane, one byte each, at the area's beginning.
pub fn write_state(state: &[u64], count: usize, lane: usize, area: &mut [u8])
    requires { (Room count state.now) × (lane < 64) × (count ≤ length area.old) }
    ensures { (st : List ℕ) → Lane lane state.now st → count ≤ length st → ThreeValued st → area.new ≡ overwritten (take count st) area.old }
{
    for s in 0..count {
        let x = lanes::read(state, s);
        area[s] = x.lane(lane);
    }
}

// The run of a lane, two tables with a row a unit: the responses, and the first so many bits of the state.
pub fn write_run(
    setup: &Setup,
    bits: usize,
    given: &GivenFaults,
    feed: &mut [u64],
    words: &mut [u64],
    state: &mut [u64],
    lane: usize,
    responses: &mut [u8],
    states: &mut [u8],
)
    requires { (Runs setup.now given.now.hits.now given.now.masks.now feed.old words.old state.old) × (bits ≤ F setup.now.circuit.now) × (lane < 64)
        × (L setup.now.circuit.now setup.now.test.now * O setup.now.circuit.now ≤ length responses.old) × (L setup.now.circuit.now setup.now.test.now * bits ≤ length states.old) }
    ensures { (f : Fault) (st : List ℕ) → Stuck lane given.now.hits.now given.now.masks.now f → Lane lane state.old st → length st ≡ F setup.now.circuit.now → ThreeValued st
        → (responses.new ≡ overwritten (gather (λ u. outputs_at setup.now.circuit.now setup.now.test.now f st u) (L setup.now.circuit.now setup.now.test.now)) responses.old)
        × (states.new ≡ overwritten (gather (λ u. take bits (state_at setup.now.circuit.now setup.now.test.now f st u)) (L setup.now.circuit.now setup.now.test.now)) states.old) }
{
    for u in 0..setup.job.units {
        let place = setup.job.outputs * u;
        let row = bits * u;
        values_at(
            setup.circuit,
            setup.pins,
            setup.job.lines,
            setup.job.inputs,
            setup.test,
            u,
            state,
            given,
            feed,
            words,
        );
        write_outputs(
            setup.circuit,
            setup.outs,
            setup.job.outputs,
            given,
            words,
            lane,
            &mut responses[place..],
        );
        write_state(state, bits, lane, &mut states[row..]);
        unit::next_state(
            setup.circuit,
            setup.flops,
            setup.job.flops,
            given,
            words,
            state,
        );
    }
}

// The lanes in which some output opposes the response that the row gives, a byte an output.
pub fn opposing(
    c: &[u8],
    outs: &[usize],
    count: usize,
    given: &GivenFaults,
    words: &[u64],
    row: &[u8],
) -> u64
    requires { (ValidCircuit c.now) × (Listed (output_lines c.now) outs.now) × (count ≡ O c.now) × (Room (N c.now) words.now) × (count ≤ length row.now) }
    ensures { (lane : ℕ) (f : Fault) (vs : List ℕ) → Stuck lane given.now.hits.now given.now.masks.now f → Lane lane words.now vs → length vs ≡ N c.now
        → bit lane result ≡ some_oppose row.now (outputs c.now f vs) }
{
    let mut found: u64 = 0;
    for o in 0..count {
        let x = lanes::read(words, outs[o]);
        found |= x.opposing(row[o]);
    }
    found
}

// The lanes, of those wanted, in which some output opposes the given responses at one of the first so many units; no unit is run after all
// of them do.
pub fn opposing_ever(
    setup: &Setup,
    units: usize,
    free: &[u8],
    wanted: u64,
    given: &GivenFaults,
    feed: &mut [u64],
    words: &mut [u64],
    state: &mut [u64],
) -> u64
    requires { (Runs setup.now given.now.hits.now given.now.masks.now feed.old words.old state.old) × (units ≤ L setup.now.circuit.now setup.now.test.now) × (units * O setup.now.circuit.now ≤ length free.now) }
    ensures { (lane : ℕ) (f : Fault) (st : List ℕ) → Stuck lane given.now.hits.now given.now.masks.now f → Lane lane state.old st → length st ≡ F setup.now.circuit.now
        → bit lane result ≡ bit lane wanted && any_below (λ u. some_oppose (row_of (O setup.now.circuit.now) free.now u) (outputs_at setup.now.circuit.now setup.now.test.now f st u)) units }
{
    let mut found: u64 = 0;
    for u in 0..units {
        let at = setup.job.outputs * u;
        let to = at + setup.job.outputs;
        values_at(
            setup.circuit,
            setup.pins,
            setup.job.lines,
            setup.job.inputs,
            setup.test,
            u,
            state,
            given,
            feed,
            words,
        );
        found |= opposing(
            setup.circuit,
            setup.outs,
            setup.job.outputs,
            given,
            words,
            &free[at..to],
        );
        if found & wanted == wanted {
            return wanted;
        }
        unit::next_state(
            setup.circuit,
            setup.flops,
            setup.job.flops,
            given,
            words,
            state,
        );
    }
    found & wanted
}
