// One time unit in 64 lanes, with inputs, a state and a fault of its own in each: the values of all lines, in line order, and the next state.
#![tactic(auto)]

ghost use Rattle.std.specs.Prelude.{◌≡◌, List, true, false, ℕ, ◌+◌, ◌*◌, ◌<◌, ◌≤◌, length};
ghost use Rattle.model.specs.Inputs.{N, kind, pin_line, is_gate, I, F, flip_flops, Fault};
ghost use Rattle.model.specs.Accepted.{ValidCircuit};
ghost use Rattle.model.specs.Values.{gate};
ghost use Rattle.model.specs.Simulation.{is_stuck, seen, pin_seen, pins_seen, behind, line_values, next_state};
ghost use Rattle.lanes.specs.Lane.{Holds, Lane, Room};
ghost use Rattle.circuit.specs.Table.{Listed, PinTable};
ghost use Rattle.unit.specs.Unit.{StuckAt, Stuck, MaskRoom, pin_tabled, LineStored};

use lanes::Lanes;

// The faults of the lanes: a byte a line, which tells its row, and 256 rows of five masks. The byte is 0 for a line with no fault: rows begin at 1, a
// cleared array says that no line has one, and an `Option` of a byte would be two.
#[derive(Clone, Copy)]
pub struct GivenFaults<'a> {
    pub hits: &'a [u8],
    pub masks: &'a [u64],
}

// What is seen at a pin (0: the line itself) of a line with this row of masks, where x stands behind it.
pub fn seen_at(masks: &[u64], row: usize, pin: usize, x: Lanes) -> Lanes
    requires { (MaskRoom masks.now) × (row < 256) × (pin < 5) }
    ensures { (t : ℕ) (f : Fault) (n v : ℕ) → StuckAt t masks.now row f n → Holds t x v → Holds t result (seen f n pin v) }
{
    if row == 0 {
        return x;
    }
    x.stuck(lanes::read(masks, 5 * row + pin))
}

// What pin p of line n sees.
pub fn pin_lanes(c: &[u8], masks: &[u64], words: &[u64], n: usize, p: usize, row: usize) -> Lanes
    requires { (12 * n + 12 ≤ length c.now) × (1 ≤ p) × (p ≤ 4) × (MaskRoom masks.now) × (row < 256) × (Room (pin_line c.now n p + 1) words.now) }
    ensures { (t : ℕ) (f : Fault) (vs : List ℕ) → StuckAt t masks.now row f n → Lane t words.now vs → pin_line c.now n p < length vs
        → Holds t result (pin_seen c.now f vs n p) }
{
    let m = circuit::pin_of(c, n, p);
    seen_at(masks, row, p, lanes::read(words, m))
}

// Gate n, of kind k (a number: see `combine` of lanes), by its record: of any kind, with a fault at it or none.
#[tactic(auto, using(crate::proofs::Gates::gate_rules))]
fn gate_lanes(c: &[u8], masks: &[u64], words: &[u64], n: usize, k: u8, row: usize) -> Lanes
    requires { (ValidCircuit c.now) × (n < N c.now) × (k ≡ kind c.now n) × (2 ≤ k) × (MaskRoom masks.now) × (row < 256) × (Room n words.now) }
    ensures { (t : ℕ) (f : Fault) (vs : List ℕ) → StuckAt t masks.now row f n → Lane t words.now vs → n ≤ length vs → Holds t result (gate k (pins_seen c.now f vs n)) }
{
    let pins = circuit::pins_of(c, n);
    let first = pin_lanes(c, masks, words, n, 1, row);
    if pins < 2 {
        return first.finish(k);
    }
    let second = pin_lanes(c, masks, words, n, 2, row);
    if pins < 3 {
        return first.combine(k, second).finish(k);
    }
    let third = pin_lanes(c, masks, words, n, 3, row);
    if pins < 4 {
        return first.combine(k, second.combine(k, third)).finish(k);
    }
    let fourth = pin_lanes(c, masks, words, n, 4, row);
    first
        .combine(k, second.combine(k, third.combine(k, fourth)))
        .finish(k)
}

// What pin i + 1 of gate n sees where the gate has no fault, as the table of pins has it: of OR the inverse, and for a pin that the gate
// does not have its first pin again.
fn free_pin(c: &[u8], pins: &[u16], words: &[u64], n: usize, i: usize) -> Lanes
    requires { (ValidCircuit c.now) × (n < N c.now) × (is_gate c.now n ≡ true) × (i < 4) × (PinTable c.now pins.now) × (Room n words.now) }
    ensures { (t : ℕ) (f : Fault) (vs : List ℕ) → ((pin : ℕ) → is_stuck f n pin ≡ false) → Lane t words.now vs → n ≤ length vs
        → Holds t result (pin_tabled c.now f vs n (i + 1)) }
{
    lanes::read_turned(words, usize::from(pins[4 * n + i]))
}

// Gate n with no fault at it, of a kind k up to 7. All are one AND of four pins, which needs no test of kind or pin count: OR is, by
// De Morgan, the inverse of the AND of its inverted pins.
#[tactic(auto, using(crate::proofs::Gates::gate_rules))]
fn and_gate(c: &[u8], pins: &[u16], words: &[u64], n: usize, k: u8) -> Lanes
    requires { (ValidCircuit c.now) × (n < N c.now) × (k ≡ kind c.now n) × (2 ≤ k) × (k ≤ 7) × (PinTable c.now pins.now) × (Room n words.now) }
    ensures { (t : ℕ) (f : Fault) (vs : List ℕ) → ((pin : ℕ) → is_stuck f n pin ≡ false) → Lane t words.now vs → n ≤ length vs
        → Holds t result (gate k (pins_seen c.now f vs n)) }
{
    let first = free_pin(c, pins, words, n, 0);
    let second = free_pin(c, pins, words, n, 1);
    let third = free_pin(c, pins, words, n, 2);
    let fourth = free_pin(c, pins, words, n, 3);
    let all = first.and(second).and(third.and(fourth));
    match k {
        0..=5 => all.finish(k),
        _ => all.finish(k + 1),
    }
}

// XOR or XNOR n with no fault at it. The first pin is read once, and once more for each pin that the gate does not have: where the gate has
// an odd number of pins that is an even number of times, and the first pin is taken once more.
#[tactic(auto, using(crate::proofs::Gates::gate_rules))]
fn xor_gate(c: &[u8], pins: &[u16], words: &[u64], n: usize, k: u8) -> Lanes
    requires { (ValidCircuit c.now) × (n < N c.now) × (k ≡ kind c.now n) × (8 ≤ k) × (PinTable c.now pins.now) × (Room n words.now) }
    ensures { (t : ℕ) (f : Fault) (vs : List ℕ) → ((pin : ℕ) → is_stuck f n pin ≡ false) → Lane t words.now vs → n ≤ length vs
        → Holds t result (gate k (pins_seen c.now f vs n)) }
{
    let first = free_pin(c, pins, words, n, 0);
    let second = free_pin(c, pins, words, n, 1);
    let third = free_pin(c, pins, words, n, 2);
    let fourth = free_pin(c, pins, words, n, 3);
    let all = first.xor(second.xor(third.xor(fourth)));
    if circuit::pins_of(c, n) % 2 == 1 {
        return first.xor(all).finish(k);
    }
    all.finish(k)
}

// Gate n, of kind k, with no fault at it.
fn free_gate(c: &[u8], pins: &[u16], words: &[u64], n: usize, k: u8) -> Lanes
    requires { (ValidCircuit c.now) × (n < N c.now) × (k ≡ kind c.now n) × (2 ≤ k) × (PinTable c.now pins.now) × (Room n words.now) }
    ensures { (t : ℕ) (f : Fault) (vs : List ℕ) → ((pin : ℕ) → is_stuck f n pin ≡ false) → Lane t words.now vs → n ≤ length vs
        → Holds t result (gate k (pins_seen c.now f vs n)) }
{
    match k {
        0..=7 => and_gate(c, pins, words, n, k),
        _ => xor_gate(c, pins, words, n, k),
    }
}

// Gate n, of kind k, from the values of lines among which are all lower ones. Most gates have no fault at them and are no XOR.
pub fn any_gate(
    c: &[u8],
    pins: &[u16],
    masks: &[u64],
    words: &[u64],
    n: usize,
    k: u8,
    row: usize,
) -> Lanes
    requires { (ValidCircuit c.now) × (n < N c.now) × (k ≡ kind c.now n) × (2 ≤ k) × (PinTable c.now pins.now) × (MaskRoom masks.now) × (row < 256) × (Room n words.now) }
    ensures { (t : ℕ) (f : Fault) (vs : List ℕ) → StuckAt t masks.now row f n → Lane t words.now vs → n ≤ length vs → Holds t result (gate k (pins_seen c.now f vs n)) }
{
    if row == 0 && k <= 7 {
        return and_gate(c, pins, words, n, k);
    }
    gate_lanes(c, masks, words, n, k, row)
}

// What stands behind line n, of kind k: the input or the state bit at its place, or what its gate gives.
fn behind_lanes(
    c: &[u8],
    pins: &[u16],
    inputs: &[u64],
    state: &[u64],
    masks: &[u64],
    words: &[u64],
    n: usize,
    k: u8,
    row: usize,
) -> Lanes
    requires { (ValidCircuit c.now) × (n < N c.now) × (k ≡ kind c.now n) × (PinTable c.now pins.now) × (MaskRoom masks.now) × (row < 256) × (Room n words.now)
        × (Room (I c.now) inputs.now) × (Room (F c.now) state.now) }
    ensures { (t : ℕ) (f : Fault) (ins st vs : List ℕ) → StuckAt t masks.now row f n → Lane t inputs.now ins → length ins ≡ I c.now → Lane t state.now st → length st ≡ F c.now
        → Lane t words.now vs → length vs ≡ n → Holds t result (behind c.now f ins st vs n) }
{
    match k {
        0 => lanes::read(inputs, usize::from(pins[4 * n])),
        1 => lanes::read(state, usize::from(pins[4 * n])),
        _ => gate_lanes(c, masks, words, n, k, row),
    }
}

// Stores the value of line n, of any kind k, with a fault at it or none.
fn store_line(
    c: &[u8],
    pins: &[u16],
    inputs: &[u64],
    state: &[u64],
    masks: &[u64],
    words: &mut [u64],
    n: usize,
    k: u8,
    row: usize,
)
    requires { (ValidCircuit c.now) × (n < N c.now) × (k ≡ kind c.now n) × (PinTable c.now pins.now) × (MaskRoom masks.now) × (row < 256) × (Room (n + 1) words.old)
        × (Room (I c.now) inputs.now) × (Room (F c.now) state.now) }
    ensures { LineStored c.now inputs.now state.now masks.now words.old words.new n row }
{
    let x = behind_lanes(c, pins, inputs, state, masks, words, n, k, row);
    lanes::store(words, n, seen_at(masks, row, 0, x));
}

// The same by a second way. Most lines are gates with no fault at them, and these take the short one: no slice is lent on their account, and no value comes
// back by memory.
fn simulate_line(
    c: &[u8],
    pins: &[u16],
    inputs: &[u64],
    state: &[u64],
    masks: &[u64],
    words: &mut [u64],
    n: usize,
    k: u8,
    row: usize,
)
    requires { (ValidCircuit c.now) × (n < N c.now) × (k ≡ kind c.now n) × (PinTable c.now pins.now) × (MaskRoom masks.now) × (row < 256) × (Room (n + 1) words.old)
        × (Room (I c.now) inputs.now) × (Room (F c.now) state.now) }
    ensures { LineStored c.now inputs.now state.now masks.now words.old words.new n row }
{
    if row == 0 && 2 <= k {
        lanes::store(words, n, free_gate(c, pins, words, n, k));
        return;
    }
    store_line(c, pins, inputs, state, masks, words, n, k, row);
}

// The values of all lines.
pub fn simulate_unit(
    c: &[u8],
    pins: &[u16],
    lines: usize,
    inputs: &[u64],
    state: &[u64],
    given: &GivenFaults,
    words: &mut [u64],
)
    requires { (ValidCircuit c.now) × (PinTable c.now pins.now) × (lines ≡ N c.now) × (lines ≤ length given.now.hits.now) × (MaskRoom given.now.masks.now) × (Room lines words.old)
        × (Room (I c.now) inputs.now) × (Room (F c.now) state.now) }
    ensures { (t : ℕ) (f : Fault) (ins st : List ℕ) → Stuck t given.now.hits.now given.now.masks.now f → Lane t inputs.now ins → length ins ≡ I c.now → Lane t state.now st → length st ≡ F c.now
        → Lane t words.new (line_values c.now f ins st) }
{
    for n in 0..lines {
        let k = circuit::field(c, n, circuit::KIND);
        let row = usize::from(given.hits[n]);
        simulate_line(c, pins, inputs, state, given.masks, words, n, k, row);
    }
}

// The next state: what the pins of the flip-flops, whose lines `flops` lists, see.
pub fn next_state(
    c: &[u8],
    flops: &[usize],
    count: usize,
    given: &GivenFaults,
    words: &[u64],
    state: &mut [u64],
)
    requires { (ValidCircuit c.now) × (Listed (flip_flops c.now) flops.now) × (count ≡ F c.now) × (N c.now ≤ length given.now.hits.now) × (MaskRoom given.now.masks.now)
        × (Room (N c.now) words.now) × (Room count state.old) }
    ensures { (t : ℕ) (f : Fault) (vs : List ℕ) → Stuck t given.now.hits.now given.now.masks.now f → Lane t words.now vs → length vs ≡ N c.now
        → Lane t state.new (next_state c.now f vs) }
{
    for s in 0..count {
        let n = flops[s];
        let row = usize::from(given.hits[n]);
        lanes::store(state, s, pin_lanes(c, given.masks, words, n, 1, row));
    }
}
