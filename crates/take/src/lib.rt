// Stage 5, the plan: its pairs in order, each taken or passed over, and the extras of those taken. A pair's extras are made in the two rows
// behind those of the pairs taken so far; where it is passed over, the next pair's are written over them.
#![tactic(auto)]

ghost use Rattle.std.specs.Prelude.{false, ◌&&◌, ◌||◌, ◌≡◌, ◌+◌, ◌*◌, ◌<◌, ◌≤◌, eqb, length, get_or, set, replicate};
ghost use Rattle.model.specs.Inputs.{F, O, L, plan_count};
ghost use Rattle.model.specs.Values.{X};
ghost use Rattle.lanes.specs.Lane.{Room};
ghost use Rattle.run.specs.Run.{Runs};
ghost use Rattle.take.specs.Take.{may_take, with_pair, meets_row, LaneExtra, PairMade, Touched, PairTaken, AllTaken};

use run::Setup;
use trial::Pair;
use unit::GivenFaults;

// The tests of a pair (u, i) that need no trial, where m pairs are taken.
fn may_take(
    m: usize,
    k: usize,
    u: usize,
    units: usize,
    i: usize,
    size: usize,
    left: usize,
    list: &[u8],
) -> bool
    requires { units * size ≤ length list.now }
    ensures { result ≡ may_take m k u units i size left list.now }
{
    m < k && u < units && i < size && u <= left && list[size * u + i] > 1
}

// The extras of (0, i): bit i alone, 0 and 1.
pub fn first_extras(size: usize, i: usize, m: usize, extras: &mut [u8])
    requires { (i < size) × (m < 12) × (size ≤ 256) × (size * (2 * m + 1) + size ≤ length extras.old) }
    ensures { extras.new ≡ with_pair size m (set (replicate size X) i 0) (set (replicate size X) i 1) extras.old }
{
    let low = size * (2 * m);
    rows::one_bit(size, i, 0, &mut extras[low..]);
    let high = size * (2 * m + 1);
    rows::one_bit(size, i, 1, &mut extras[high..]);
}

// The extra of the value that a lane tries for a pair at unit u, in row r: nothing where the lane is marked.
pub fn lane_extra(
    size: usize,
    states: &[u8],
    u: usize,
    after: &[u64],
    marks: u64,
    lane: usize,
    r: usize,
    extras: &mut [u8],
)
    requires { (0 < size) × (size * u + size ≤ length states.now) × (Room size after.now) × (lane < 64) × (size * r + size ≤ length extras.old) }
    ensures { LaneExtra size states.now u after.now marks lane r extras.old extras.new }
{
    let at = size * r;
    if tally::has_lane(marks, lane) {
        rows::one_bit(size, 0, 2, &mut extras[at..]);
        return;
    }
    let from = size * u;
    let to = from + size;
    rows::extra_row(&states[from..to], after, size, lane, &mut extras[at..]);
}

// The extras of (u, i), by a trial at the unit before u.
fn tried_extras(
    setup: &Setup,
    free: &[u8],
    states: &[u8],
    u: usize,
    i: usize,
    m: usize,
    given: &GivenFaults,
    feed: &mut [u64],
    words: &mut [u64],
    state: &mut [u64],
    extras: &mut [u8],
)
    requires { (Runs setup.now given.now.hits.now given.now.masks.now feed.old words.old state.old)
        × (L setup.now.circuit.now setup.now.test.now * O setup.now.circuit.now ≤ length free.now) × (L setup.now.circuit.now setup.now.test.now * F setup.now.circuit.now ≤ length states.now) × (0 < u) × (u < L setup.now.circuit.now setup.now.test.now) × (i < F setup.now.circuit.now) × (m < 12)
        × (F setup.now.circuit.now * (2 * m + 1) + F setup.now.circuit.now ≤ length extras.old) }
    ensures { PairMade setup.now.circuit.now setup.now.test.now free.now states.now given.now.hits.now given.now.masks.now u i m extras.old extras.new }
{
    let pair = Pair {
        unit: u - 1,
        bit: i,
    };
    let marks = trial::try_pairs(setup, free, states, &[pair], given, feed, words, state);
    unit::next_state(
        setup.circuit,
        setup.flops,
        setup.job.flops,
        given,
        words,
        state,
    );
    lane_extra(setup.job.flops, states, u, state, marks, 0, 2 * m, extras);
    lane_extra(
        setup.job.flops,
        states,
        u,
        state,
        marks,
        1,
        2 * m + 1,
        extras,
    );
}

// The extras of (u, i), in the rows of pair m.
fn make_extras(
    setup: &Setup,
    free: &[u8],
    states: &[u8],
    u: usize,
    i: usize,
    m: usize,
    given: &GivenFaults,
    feed: &mut [u64],
    words: &mut [u64],
    state: &mut [u64],
    extras: &mut [u8],
)
    requires { (Runs setup.now given.now.hits.now given.now.masks.now feed.old words.old state.old)
        × (L setup.now.circuit.now setup.now.test.now * O setup.now.circuit.now ≤ length free.now) × (L setup.now.circuit.now setup.now.test.now * F setup.now.circuit.now ≤ length states.now) × (u < L setup.now.circuit.now setup.now.test.now) × (i < F setup.now.circuit.now) × (m < 12)
        × (F setup.now.circuit.now * (2 * m + 1) + F setup.now.circuit.now ≤ length extras.old) }
    ensures { PairMade setup.now.circuit.now setup.now.test.now free.now states.now given.now.hits.now given.now.masks.now u i m extras.old extras.new }
{
    if u == 0 {
        first_extras(setup.job.flops, i, m, extras);
        return;
    }
    tried_extras(
        setup, free, states, u, i, m, given, feed, words, state, extras,
    );
}

// Whether either extra of pair m overlaps row r of a table.
fn meets_row(size: usize, extras: &[u8], m: usize, table: &[u8], r: usize) -> bool
    requires { (m < 12) × (size * (2 * m + 1) + size ≤ length extras.now) × (size * r + size ≤ length table.now) }
    ensures { result ≡ meets_row size extras.now m table.now r }
{
    let at = size * r;
    let to = at + size;
    let low = size * (2 * m);
    let low_end = low + size;
    let zero = rows::overlap(&extras[low..low_end], &table[at..to], size);
    let high = size * (2 * m + 1);
    let high_end = high + size;
    let one = rows::overlap(&extras[high..high_end], &table[at..to], size);
    zero | one
}

// Whether pair q is of unit u, and either extra of pair m overlaps one of its own.
fn meets_pair(size: usize, extras: &[u8], m: usize, times: &[usize], u: usize, q: usize) -> bool
    requires { (m < 12) × (q < m) × (q < length times.now) × (size * (2 * m + 1) + size ≤ length extras.now) }
    ensures { result ≡ (eqb (get_or times.now q 0) u && (meets_row size extras.now m extras.now (2 * q) || meets_row size extras.now m extras.now (2 * q + 1))) }
{
    times[q] == u
        && (meets_row(size, extras, m, extras, 2 * q)
            || meets_row(size, extras, m, extras, 2 * q + 1))
}

// Whether either extra of pair m, of unit u, overlaps the state list there or the extras of a pair before it, from the last to the first.
pub fn touches(size: usize, list: &[u8], u: usize, times: &[usize], m: usize, extras: &[u8]) -> bool
    requires { (m < 12) × (m ≤ length times.now) × (size * u + size ≤ length list.now) × (size * (2 * m + 1) + size ≤ length extras.now) }
    ensures { Touched size list.now u times.now m extras.now result }
{
    let mut found = meets_row(size, extras, m, list, u);
    for q in (0..m).rev() {
        found |= meets_pair(size, extras, m, times, u, q);
    }
    found
}

// The pair (u, i) of the plan, behind m pairs taken: how many are taken then.
pub fn take_pair(
    setup: &Setup,
    free: &[u8],
    states: &[u8],
    list: &[u8],
    left: usize,
    u: usize,
    i: usize,
    k: usize,
    m: usize,
    given: &GivenFaults,
    feed: &mut [u64],
    words: &mut [u64],
    state: &mut [u64],
    times: &mut [usize],
    extras: &mut [u8],
) -> usize
    requires { (Runs setup.now given.now.hits.now given.now.masks.now feed.old words.old state.old)
        × (L setup.now.circuit.now setup.now.test.now * O setup.now.circuit.now ≤ length free.now) × (L setup.now.circuit.now setup.now.test.now * F setup.now.circuit.now ≤ length states.now) × (L setup.now.circuit.now setup.now.test.now * F setup.now.circuit.now ≤ length list.now) × (m ≤ k) × (k ≤ 12)
        × (12 ≤ length times.old) × (24 * F setup.now.circuit.now ≤ length extras.old) }
    ensures { PairTaken setup.now.circuit.now setup.now.test.now free.now states.now list.now given.now.hits.now given.now.masks.now left u i k m
        times.old extras.old result times.new extras.new }
{
    if !may_take(m, k, u, setup.job.units, i, setup.job.flops, left, list) {
        return m;
    }
    make_extras(
        setup, free, states, u, i, m, given, feed, words, state, extras,
    );
    if touches(setup.job.flops, list, u, times, m, extras) {
        return m;
    }
    times[m] = u;
    m + 1
}

// The plan's pairs that are taken of the fault that all lanes have, at most k of them: how many, the unit of each, and their extras, two rows a
// pair. Nout is above 0 at the first `left` units.
pub fn take_pairs(
    setup: &Setup,
    free: &[u8],
    states: &[u8],
    list: &[u8],
    left: usize,
    plan: &[u8],
    k: usize,
    given: &GivenFaults,
    feed: &mut [u64],
    words: &mut [u64],
    state: &mut [u64],
    times: &mut [usize],
    extras: &mut [u8],
) -> usize
    requires { (Runs setup.now given.now.hits.now given.now.masks.now feed.old words.old state.old)
        × (L setup.now.circuit.now setup.now.test.now * O setup.now.circuit.now ≤ length free.now) × (L setup.now.circuit.now setup.now.test.now * F setup.now.circuit.now ≤ length states.now) × (L setup.now.circuit.now setup.now.test.now * F setup.now.circuit.now ≤ length list.now)
        × (length plan.now ≡ 4 * plan_count plan.now) × (plan_count plan.now ≤ 4096) × (k ≤ 12)
        × (12 ≤ length times.old) × (24 * F setup.now.circuit.now ≤ length extras.old) }
    ensures { AllTaken setup.now.circuit.now setup.now.test.now free.now states.now list.now plan.now given.now.hits.now given.now.masks.now left k result
        times.new extras.new }
{
    let mut m: usize = 0;
    for n in 0..plan.len() / 4 {
        m = take_pair(
            setup,
            free,
            states,
            list,
            left,
            basics::word_at(plan, 4 * n),
            basics::word_at(plan, 4 * n + 2),
            k,
            m,
            given,
            feed,
            words,
            state,
            times,
            extras,
        );
    }
    m
}
