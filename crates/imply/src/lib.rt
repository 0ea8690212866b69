// Implication in one time unit, in 64 lanes: both passes over line values, each lane with a fault and a trial of its own. A lane that meets
// a conflict keeps it, as a line with both bits set; what else such a lane holds is no matter, so no step looks for conflicts but the last.
#![tactic(auto)]

ghost use Rattle.std.specs.Prelude.{◌≡◌, List, false, cond, ℕ, ◌+◌, ◌*◌, ◌/◌, ◌<◌, ◌≤◌, length, get_or};
ghost use Rattle.model.specs.Inputs.{pin_count, pin_line, Fault};
ghost use Rattle.model.specs.Values.{X, even_gate, has_conflict};
ghost use Rattle.model.specs.Simulation.{is_stuck};
ghost use Rattle.model.specs.Implication.{others, give_line};
ghost use Rattle.lanes.specs.Lane.{bit, Holds, all_x, Room, Follows};
ghost use Rattle.circuit.specs.Table.{PinTable};
ghost use Rattle.unit.specs.Unit.{StuckAt, MaskRoom};
ghost use Rattle.imply.specs.Implied.{and_implies_of, implies_of, picked};
ghost use Rattle.imply.specs.Steps.{GateAt, PinsGiven, SteppedDown, SteppedUp, Passable, PassedDown, PassedUp, Implied};

use lanes::Lanes;
use unit::GivenFaults;

// What AND at v implies for a pin, where the other pins give `rest`.
fn and_implies(v: Lanes, pin: Lanes, rest: Lanes) -> Lanes
    ensures { (t a p o : ℕ) → Holds t v a → Holds t pin p → Holds t rest o → Holds t result (and_implies_of a p o) }
{
    let zeros = v.zeros & rest.ones;
    let known = pin.zeros | pin.ones;
    Lanes {
        zeros: zeros & !known,
        ones: v.ones,
    }
}

// What a gate of kind k, at v before it inverts, implies for a pin, where the other pins give `rest`. A kind is a number: see `combine` of lanes.
fn implies(k: u8, v: Lanes, pin: Lanes, rest: Lanes) -> Lanes
    requires { (2 ≤ k) × (k ≤ 9) }
    ensures { (t a p o : ℕ) → Holds t v a → Holds t pin p → Holds t rest o → Holds t result (implies_of (k / 2) a p o) }
{
    match k {
        0..=3 => v,
        4..=5 => and_implies(v, pin, rest),
        6..=7 => and_implies(v.invert(), pin, rest.invert()).invert(),
        _ => v.xor(rest).unless(pin),
    }
}

// Pin p of line n is given x; in the lanes in which it is stuck the line behind it is left alone.
fn give_pin(c: &[u8], masks: &[u64], words: &mut [u64], n: usize, p: usize, row: usize, x: Lanes)
    requires { (12 * n + 12 ≤ length c.now) × (1 ≤ p) × (p ≤ 4) × (MaskRoom masks.now) × (row < 256) × (Room (pin_line c.now n p + 1) words.old) }
    ensures { (t : ℕ) (f : Fault) (vs : List ℕ) (v : ℕ) → StuckAt t masks.now row f n → pin_line c.now n p < length vs → v < 3
        → (has_conflict vs ≡ false → Holds t x v) → Follows t words.old vs
        → Follows t words.new (cond (is_stuck f n p) vs (give_line vs (pin_line c.now n p) v)) }
{
    let m = circuit::pin_of(c, n, p);
    let told = x.unless(unit::seen_at(masks, row, p, Lanes::X));
    let y = lanes::read(words, m).give(told);
    lanes::store(words, m, y);
}

// What the pins below n but pin i give together with `rest`, which is what those behind them give.
fn with_rest(k: u8, sees: &[Lanes], n: usize, i: usize, rest: Lanes) -> Lanes
    requires { (2 ≤ k) × (k ≤ 9) × (n ≤ length sees.now) }
    ensures { (t : ℕ) (vs tail : List ℕ) → ((j : ℕ) → j < n → Holds t (get_or sees.now j all_x) (get_or vs j X)) → Holds t rest (even_gate (k / 2) tail)
        → Holds t result (even_gate (k / 2) (picked vs i n 0 tail)) }
{
    let mut all = rest;
    for j in (0..n).rev() {
        if j != i {
            all = sees[j].combine(k, all);
        }
    }
    all
}

// What all pins of a gate but pin i give together, before it inverts: nothing where there is no other. Each of the two calls goes over a
// number of pins that P alone gives, so that its loop is written out when it is compiled.
fn others<const P: usize>(k: u8, sees: &[Lanes; P], i: usize) -> Lanes
    requires { (2 ≤ k) × (k ≤ 9) × (i < P) × (P ≡ 1 → k ≤ 3) }
    ensures { (t : ℕ) (vs : List ℕ) → length vs ≡ P → P ≤ 4 → ((j : ℕ) → j < P → Holds t (get_or sees.now j all_x) (get_or vs j X))
        → Holds t result (even_gate (k / 2) (others vs i)) }
{
    if P == 1 {
        return Lanes::X;
    }
    if i + 1 < P {
        return with_rest(k, sees, P - 1, i, sees[P - 1]);
    }
    with_rest(k, sees, P - 2, i, sees[P - 2])
}

// A gate with P pins, at v before it inverts, implies them.
fn down_pins<const P: usize>(
    c: &[u8],
    masks: &[u64],
    words: &mut [u64],
    n: usize,
    k: u8,
    row: usize,
    v: Lanes,
)
    requires { (GateAt c.now masks.now words.old n k row) × (pin_count c.now n ≡ P) × (P ≡ 1 → k ≤ 3) }
    ensures { PinsGiven c.now masks.now words.old words.new n k row v }
{
    let mut sees = [Lanes::X; P];
    for i in 0..P {
        sees[i] = unit::pin_lanes(c, masks, words, n, i + 1, row);
    }
    for i in 0..P {
        let x = implies(k, v, sees[i], others(k, &sees, i));
        give_pin(c, masks, words, n, i + 1, row, x);
    }
}

// A gate line that is specified and not stuck implies pins; in all other lanes it is X here, which implies nothing.
fn down_gate(c: &[u8], masks: &[u64], words: &mut [u64], n: usize, k: u8, row: usize)
    requires { GateAt c.now masks.now words.old n k row }
    ensures { SteppedDown c.now masks.now words.old words.new n row }
{
    let stuck = unit::seen_at(masks, row, 0, Lanes::X);
    let v = lanes::read(words, n).unless(stuck).finish(k);
    let pins = circuit::pins_of(c, n);
    match pins {
        0..=1 => down_pins::<1>(c, masks, words, n, k, row, v),
        2 => down_pins::<2>(c, masks, words, n, k, row, v),
        3 => down_pins::<3>(c, masks, words, n, k, row, v),
        _ => down_pins::<4>(c, masks, words, n, k, row, v),
    }
}

// Line n's step down.
fn down_line(c: &[u8], given: &GivenFaults, words: &mut [u64], lines: usize, n: usize)
    requires { (Passable c.now given.now.hits.now given.now.masks.now words.old lines) × (n < lines) }
    ensures { SteppedDown c.now given.now.masks.now words.old words.new n (get_or given.now.hits.now n 0) }
{
    let k = circuit::field(c, n, circuit::KIND);
    if k < 2 {
        return;
    }
    let row = usize::from(given.hits[n]);
    down_gate(c, given.masks, words, n, k, row);
}

// Down, from line N - 1 to 0.
fn down_pass(c: &[u8], given: &GivenFaults, words: &mut [u64], lines: usize)
    requires { Passable c.now given.now.hits.now given.now.masks.now words.old lines }
    ensures { PassedDown c.now given.now.hits.now given.now.masks.now words.old words.new }
{
    for n in (0..lines).rev() {
        down_line(c, given, words, lines, n);
    }
}

// Gate n is evaluated; in the lanes in which its line is not stuck the line is given the result.
fn up_gate(c: &[u8], pins: &[u16], masks: &[u64], words: &mut [u64], n: usize, k: u8, row: usize)
    requires { (GateAt c.now masks.now words.old n k row) × (PinTable c.now pins.now) }
    ensures { SteppedUp c.now masks.now words.old words.new n row }
{
    let fixed = unit::seen_at(masks, row, 0, Lanes::X);
    let x = unit::any_gate(c, pins, masks, words, n, k, row).unless(fixed);
    let y = lanes::read(words, n).give(x);
    lanes::store(words, n, y);
}

// Line n's step up.
fn up_line(c: &[u8], pins: &[u16], given: &GivenFaults, words: &mut [u64], lines: usize, n: usize)
    requires { (Passable c.now given.now.hits.now given.now.masks.now words.old lines) × (PinTable c.now pins.now) × (n < lines) }
    ensures { SteppedUp c.now given.now.masks.now words.old words.new n (get_or given.now.hits.now n 0) }
{
    let k = circuit::field(c, n, circuit::KIND);
    if k < 2 {
        return;
    }
    let row = usize::from(given.hits[n]);
    up_gate(c, pins, given.masks, words, n, k, row);
}

// Up, from 0.
fn up_pass(c: &[u8], pins: &[u16], given: &GivenFaults, words: &mut [u64], lines: usize)
    requires { (Passable c.now given.now.hits.now given.now.masks.now words.old lines) × (PinTable c.now pins.now) }
    ensures { PassedUp c.now given.now.hits.now given.now.masks.now words.old words.new }
{
    for n in 0..lines {
        up_line(c, pins, given, words, lines, n);
    }
}

// The lanes that have met a conflict: those in which some line has both bits.
pub fn conflicts(words: &[u64], lines: usize) -> u64
    requires { Room lines words.now }
    ensures { (t : ℕ) (vs : List ℕ) → length vs ≡ lines → Follows t words.now vs → bit t result ≡ has_conflict vs }
{
    let mut found: u64 = 0;
    for n in 0..lines {
        found |= lanes::read(words, n).conflicts();
    }
    found
}

// Both passes, over line values in which each lane has been given what it tries; the lanes that have met a conflict.
pub fn imply(c: &[u8], pins: &[u16], given: &GivenFaults, words: &mut [u64], lines: usize) -> u64
    requires { (Passable c.now given.now.hits.now given.now.masks.now words.old lines) × (PinTable c.now pins.now) }
    ensures { Implied c.now given.now.hits.now given.now.masks.now words.old words.new result }
{
    down_pass(c, given, words, lines);
    up_pass(c, pins, given, words, lines);
    conflicts(words, lines)
}
