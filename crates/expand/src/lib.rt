// Stages 3 and 4: a walk over the pairs of a time unit and a flip-flop, a word of up to 32 pairs after another. A pair with both values marked ends
// it; where one is marked, the other's extra is written into the state list. The first write that opposes is remembered until the walk has
// ended, for stage 3 speaks first.
#![tactic(auto)]

ghost use Rattle.std.specs.Prelude.{true, cond, List, ◌≡◌, ℕ, ◌+◌, ◌*◌, ◌-◌, ◌/◌, ◌%◌, ◌<◌, ◌≤◌, length, set, ltb};
ghost use Rattle.lanes.specs.Lane.{bit, Room};
ghost use Rattle.expand.specs.Expand.{is_x, pair_at, pair_for, Filled, Written, Before, Settled, Settling, Walked, Expanded};
ghost use Rattle.model.specs.Inputs.{F, O, L, Fault};
ghost use Rattle.run.specs.Run.{Runs};
ghost use Rattle.trial.specs.Trial.{pair_of};

use run::Setup;
use trial::Pair;
use unit::GivenFaults;

// So many pairs fill a word; where the walk then stands.
#[derive(Clone, Copy)]
pub struct Batch {
    pub count: usize,
    pub next: usize,
}

// The position of the pair with both values marked, and of the first write that opposed.
#[derive(Clone, Copy)]
pub struct Walk {
    pub both: Option<usize>,
    pub opposed: Option<usize>,
}

// One pair more in a word of so many, where the bit at position e is X.
fn fill_at(size: usize, states: &[u8], e: usize, count: usize, pairs: &mut [Pair]) -> usize
    requires { (0 < size) × (size ≤ e) × (e < length states.now) × (count < 32) × (32 ≤ length pairs.old) }
    ensures { (result ≡ count + cond (is_x states.now e) 1 0)
        × (pairs.new ≡ cond (is_x states.now e) (set pairs.old count (pair_for size e)) pairs.old) }
{
    if states[e] != 2 {
        return count;
    }
    pairs[count] = Pair {
        unit: e / size - 1,
        bit: e % size,
    };
    count + 1
}

// The pairs with X bits from position `at` on, up to 32 of them.
pub fn fill(size: usize, states: &[u8], at: usize, end: usize, pairs: &mut [Pair]) -> Batch
    requires { (0 < size) × (size ≤ at) × (at < end) × (end ≤ length states.now) × (32 ≤ length pairs.old) }
    ensures { (Filled size states.now pairs.new at result.next result.count) × (at < result.next) × (result.next ≤ end) }
{
    let mut count: usize = 0;
    for e in at..end {
        if count == 32 {
            return Batch { count, next: e };
        }
        count = fill_at(size, states, e, count, pairs);
    }
    Batch { count, next: end }
}

// The extra of an unmarked lane, of a pair at position e, is written into the state list at unit u, unless an earlier write opposed.
fn write_extra(
    size: usize,
    states: &[u8],
    after: &[u64],
    u: usize,
    lane: usize,
    e: usize,
    row: &mut [u8],
    list: &mut [u8],
    walk: Walk,
) -> Walk
    requires { (size * u + size ≤ length states.now) × (size * u + size ≤ length list.old) × (Room size after.now) × (lane < 64) × (size ≤ length row.old) }
    ensures { Written size states.now after.now u lane e list.old walk list.new result }
{
    if walk.opposed.is_some() {
        return walk;
    }
    let at = size * u;
    let to = at + size;
    rows::extra_row(&states[at..to], after, size, lane, row);
    if rows::give_row(row, size, &mut list[at..]) {
        return Walk {
            opposed: Some(e),
            ..walk
        };
    }
    walk
}

// Pair p of a word, at position e: where both its values are marked it ends the walk, and where one is, the other's extra is written.
fn settle_pair(
    size: usize,
    states: &[u8],
    after: &[u64],
    marks: u64,
    u: usize,
    p: usize,
    e: usize,
    row: &mut [u8],
    list: &mut [u8],
    walk: Walk,
) -> Walk
    requires { (p < 32) × (size * u + size ≤ length states.now) × (size * u + size ≤ length list.old) × (Room size after.now) × (size ≤ length row.old) }
    ensures { Settled size states.now after.now marks u p e list.old walk list.new result }
{
    let zero = tally::has_lane(marks, 2 * p);
    let one = tally::has_lane(marks, 2 * p + 1);
    match (zero, one) {
        (false, false) => walk,
        (true, false) => write_extra(size, states, after, u, 2 * p + 1, e, row, list, walk),
        (false, true) => write_extra(size, states, after, u, 2 * p, e, row, list, walk),
        (true, true) => Walk {
            both: Some(e),
            ..walk
        },
    }
}

// Position e of the walk, where p pairs of the word stand before it.
fn settle_at(
    size: usize,
    states: &[u8],
    after: &[u64],
    marks: u64,
    pairs: &[Pair],
    p: usize,
    e: usize,
    row: &mut [u8],
    list: &mut [u8],
    walk: Walk,
) -> Walk
    requires { (e < length states.now) × (is_x states.now e ≡ true → (p < 32) × (p < length pairs.now) × ((pair_of pairs.now p).unit < 1024)
        × (size * ((pair_of pairs.now p).unit + 1) + size ≤ length states.now) × (size * ((pair_of pairs.now p).unit + 1) + size ≤ length list.old))
        × (Room size after.now) × (size ≤ length row.old) }
    ensures met { (n : ℕ) → e < n → Before n walk → Before n result }
    ensures walked { (c t : List ℕ) (f : Fault) (stop at next : ℕ) → Settling c t f size stop states.now pairs.now at next marks after.now → at ≤ e → e < next
        → p ≡ pair_at states.now at e → L c t * F c ≤ length list.old → Walked c t f e list.old walk → Walked c t f (e + 1) list.new result }
{
    if states[e] != 2 {
        return walk;
    }
    match walk.both {
        Some(_) => walk,
        None => settle_pair(
            size,
            states,
            after,
            marks,
            pairs[p].unit + 1,
            p,
            e,
            row,
            list,
            walk,
        ),
    }
}

// The pairs of a word, from position `at` to `next`.
fn settle(
    size: usize,
    states: &[u8],
    after: &[u64],
    marks: u64,
    pairs: &[Pair],
    at: usize,
    next: usize,
    row: &mut [u8],
    list: &mut [u8],
    walk: Walk,
) -> Walk
    requires { (next ≤ length states.now) × (pair_at states.now at next ≤ 32) × (32 ≤ length pairs.now) × (at ≤ next)
        × ((e : ℕ) → at ≤ e → e < next → is_x states.now e ≡ true → ((pair_of pairs.now (pair_at states.now at e)).unit < 1024)
        × (size * ((pair_of pairs.now (pair_at states.now at e)).unit + 1) + size ≤ length states.now) × (size * ((pair_of pairs.now (pair_at states.now at e)).unit + 1) + size ≤ length list.old))
        × (Room size after.now) × (size ≤ length row.old) }
    ensures met { (n : ℕ) → next ≤ n → Before n walk → Before n result }
    ensures walked { (c t : List ℕ) (f : Fault) (stop : ℕ) → Settling c t f size stop states.now pairs.now at next marks after.now
        → L c t * F c ≤ length list.old → Walked c t f at list.old walk → Walked c t f next list.new result }
{
    let mut reached = walk;
    let mut p: usize = 0;
    for e in at..next {
        reached = settle_at(size, states, after, marks, pairs, p, e, row, list, reached);
        p += usize::from(states[e] == 2);
    }
    reached
}

// Where the walk ends: no pair is tried at a unit whose Nout before it is 0.
fn walk_end(size: usize, units: usize, left: usize) -> usize
    requires { (size ≤ 256) × (units ≤ 1024) }
    ensures { result ≡ size * cond (ltb left units) (left + 1) units }
{
    if left < units {
        return size * (left + 1);
    }
    size * units
}

// Stages 3 and 4 of the fault that all lanes have, where Nout is above 0 at the first `left` units: where the walk ends, and the state list.
pub fn expand(
    setup: &Setup,
    free: &[u8],
    states: &[u8],
    left: usize,
    given: &GivenFaults,
    feed: &mut [u64],
    words: &mut [u64],
    state: &mut [u64],
    pairs: &mut [Pair],
    row: &mut [u8],
    list: &mut [u8],
) -> Walk
    requires { (Runs setup.now given.now.hits.now given.now.masks.now feed.old words.old state.old)
        × (L setup.now.circuit.now setup.now.test.now * O setup.now.circuit.now ≤ length free.now) × (L setup.now.circuit.now setup.now.test.now * F setup.now.circuit.now ≤ length states.now) × (L setup.now.circuit.now setup.now.test.now * F setup.now.circuit.now ≤ length list.old)
        × (32 ≤ length pairs.old) × (256 ≤ length row.old) }
    ensures { Expanded setup.now.circuit.now setup.now.test.now free.now states.now given.now.hits.now given.now.masks.now left list.new result }
{
    let size = setup.job.flops;
    let end = walk_end(size, setup.job.units, left);
    rows::copy_row(states, size * setup.job.units, list);
    let mut walk = Walk {
        both: None,
        opposed: None,
    };
    let mut at = size;
    // a word takes up as many positions as it has room for: no range counts them
    while at < end {
        let batch = fill(size, states, at, end, pairs);
        let marks = trial::try_pairs(
            setup,
            free,
            states,
            &pairs[..batch.count],
            given,
            feed,
            words,
            state,
        );
        unit::next_state(setup.circuit, setup.flops, size, given, words, state);
        walk = settle(
            size, states, state, marks, pairs, at, batch.next, row, list, walk,
        );
        if walk.both.is_some() {
            return walk;
        }
        at = batch.next;
    }
    walk
}
