// Stage 5's sequences, 64 at a time. With m pairs taken there are 2^m sequences; bit q of a sequence's number is the value of taken pair q.
// Lane t of a block stands for the sequence base + t. The list of a sequence is not made: a state is given the state list's row and then the
// extras of the pairs of that unit. A lane that has ended goes on with whatever it holds, and nothing is said of it.
#![tactic(auto)]

ghost use Rattle.std.specs.Prelude.{true, false, cond, List, ◌≡◌, ℕ, ◌+◌, ◌*◌, ◌<◌, ◌≤◌, ◌/◌, ◌%◌, ◌^◌, eqb, length, get_or};
ghost use Rattle.lists.specs.Field.{row_of};
ghost use Rattle.model.specs.Inputs.{F, O, L};
ghost use Rattle.model.specs.Values.{give_row, has_conflict};
ghost use Rattle.lanes.specs.Lane.{bit, Room, Follows};
ghost use Rattle.run.specs.Run.{Runs};
ghost use Rattle.sequences.specs.Ends.{PairRoom, PairsGiven, ListGiven, Started, Passed, Entered, Turned, BlockEnded, Added, Counted};

use lanes::Lanes;
use run::Setup;
use unit::GivenFaults;

// How many sequences end differing, clashing, surviving.
#[derive(Clone, Copy)]
pub struct Endings {
    pub differing: usize,
    pub clashing: usize,
    pub surviving: usize,
}

impl Endings {
    // A block more.
    fn add(self, ends: Ends) -> Endings
        requires { (self.differing ≤ 4096) × (self.clashing ≤ 4096) × (self.surviving ≤ 4096) }
        ensures { Added self ends result }
    {
        Endings {
            differing: self.differing + tally::count(ends.differing),
            clashing: self.clashing + tally::count(ends.clashing),
            surviving: self.surviving + tally::count(ends.surviving),
        }
    }
}

// The lanes by how they end; those that go on still survive.
#[derive(Clone, Copy)]
struct Ends {
    differing: u64,
    clashing: u64,
    surviving: u64,
}

impl Ends {
    // One unit more: an output against the fault-free one, it differs; else a next state against its own list, it clashes.
    fn turn(self, opposing: u64, conflicts: u64) -> Ends
        ensures { (lane : ℕ) → Turned lane opposing conflicts self result }
    {
        let left = tally::take_out(self.surviving, opposing);
        Ends {
            differing: self.differing | (self.surviving & opposing),
            clashing: self.clashing | (left & conflicts),
            surviving: tally::take_out(left, conflicts),
        }
    }
}

// The state is given a row: `high` in the lanes of `ones`, `low` in all others.
fn give_row(low: &[u8], high: &[u8], ones: u64, count: usize, state: &mut [u64])
    requires { (length low.now ≡ count) × (length high.now ≡ count) × (Room count state.old) }
    ensures { (lane : ℕ) (vs new : List ℕ) → lane < 64 → length vs ≡ count → has_conflict new ≡ false → (bit lane ones ≡ false → new ≡ low.now) → (bit lane ones ≡ true → new ≡ high.now)
        → Follows lane state.old vs → Follows lane state.new (give_row vs new) }
{
    for s in 0..count {
        let x = Lanes::all(low[s]).merge(ones, Lanes::all(high[s]));
        let y = lanes::read(state, s).give(x);
        lanes::store(state, s, y);
    }
}

// The state is given the extra of pair q, with the value that the lane's sequence has for the pair.
fn give_extra(extras: &[u8], q: usize, base: usize, count: usize, state: &mut [u64])
    requires { (q < 12) × (base % 64 ≡ 0) × (count ≤ 256) × (count * (2 * q + 1) + count ≤ length extras.now) × (Room count state.old) }
    ensures { (lane : ℕ) (vs new : List ℕ) → lane < 64 → length vs ≡ count → has_conflict new ≡ false → new ≡ row_of count extras.now (2 * q + (base + lane) / 2 ^ q % 2)
        → Follows lane state.old vs → Follows lane state.new (give_row vs new) }
{
    let low = count * (2 * q);
    let low_end = low + count;
    let high = count * (2 * q + 1);
    let high_end = high + count;
    let digit = tally::numbered(base, q);
    give_row(
        &extras[low..low_end],
        &extras[high..high_end],
        digit.ones,
        count,
        state,
    );
}

// Where pair q is of unit u, its extra.
fn give_pair(
    times: &[usize],
    extras: &[u8],
    q: usize,
    u: usize,
    base: usize,
    count: usize,
    state: &mut [u64],
)
    requires { (q < length times.now) × (q < 12) × (base % 64 ≡ 0) × (count ≤ 256) × (count * (2 * q + 1) + count ≤ length extras.now) × (Room count state.old) }
    ensures { (lane : ℕ) (vs new : List ℕ) → lane < 64 → length vs ≡ count
        → (get_or times.now q 0 ≡ u → (has_conflict new ≡ false) × (new ≡ row_of count extras.now (2 * q + (base + lane) / 2 ^ q % 2)))
        → Follows lane state.old vs → Follows lane state.new (cond (eqb (get_or times.now q 0) u) (give_row vs new) vs) }
{
    if times[q] != u {
        return;
    }
    give_extra(extras, q, base, count, state);
}

// The extras of the pairs of unit u, from the last pair to the first.
fn give_pairs(
    times: &[usize],
    extras: &[u8],
    m: usize,
    u: usize,
    base: usize,
    count: usize,
    state: &mut [u64],
)
    requires { (PairRoom count m times.now extras.now) × (count ≤ 256) × (base % 64 ≡ 0) × (Room count state.old) }
    ensures { PairsGiven times.now extras.now m u base count state.old state.new }
{
    for q in (0..m).rev() {
        give_pair(times, extras, q, u, base, count, state);
    }
}

// The list of each lane's sequence at unit u: the state list with the extras.
fn give_list(
    list: &[u8],
    times: &[usize],
    extras: &[u8],
    m: usize,
    u: usize,
    base: usize,
    count: usize,
    state: &mut [u64],
)
    requires { (PairRoom count m times.now extras.now) × (count ≤ 256) × (base % 64 ≡ 0) × (Room count state.old) × (u < 1024) × (count * u + count ≤ length list.now) }
    ensures { ListGiven list.now times.now extras.now m u base count state.old state.new }
{
    let at = count * u;
    let to = at + count;
    give_row(&list[at..to], &list[at..to], 0, count, state);
    give_pairs(times, extras, m, u, base, count, state);
}

// The state of unit 0: the list of each lane's sequence there.
fn start_block(
    c: &[u8],
    list: &[u8],
    times: &[usize],
    extras: &[u8],
    m: usize,
    base: usize,
    count: usize,
    state: &mut [u64],
)
    requires { (count ≡ F c.now) × (PairRoom count m times.now extras.now) × (count ≤ 256) × (base % 64 ≡ 0) × (Room count state.old) × (count ≤ length list.now) }
    ensures { Started c.now list.now times.now extras.now m base state.new }
{
    run::power_up(c, count, state);
    give_list(list, times, extras, m, 0, base, count, state);
}

// Unit u from the state there to the next state; the lanes in which an output opposes the fault-free one.
fn pass_unit(
    setup: &Setup,
    u: usize,
    free: &[u8],
    given: &GivenFaults,
    feed: &mut [u64],
    words: &mut [u64],
    state: &mut [u64],
) -> u64
    requires { (Runs setup.now given.now.hits.now given.now.masks.now feed.old words.old state.old) × (u < L setup.now.circuit.now setup.now.test.now) × (L setup.now.circuit.now setup.now.test.now * O setup.now.circuit.now ≤ length free.now) }
    ensures { Passed setup.now.circuit.now setup.now.test.now free.now given.now.hits.now given.now.masks.now u state.old state.new result }
{
    let at = setup.job.outputs * u;
    let to = at + setup.job.outputs;
    run::values_at(
        setup.circuit,
        setup.pins,
        setup.job.lines,
        setup.job.inputs,
        setup.test,
        u,
        state,
        given,
        feed,
        words,
    );
    let found = run::opposing(
        setup.circuit,
        setup.outs,
        setup.job.outputs,
        given,
        words,
        &free[at..to],
    );
    unit::next_state(
        setup.circuit,
        setup.flops,
        setup.job.flops,
        given,
        words,
        state,
    );
    found
}

// Into unit u: up to unit L - 1 the next state is given the list of each lane's sequence; the lanes in which the two conflict.
fn enter_unit(
    list: &[u8],
    times: &[usize],
    extras: &[u8],
    m: usize,
    u: usize,
    units: usize,
    base: usize,
    count: usize,
    state: &mut [u64],
) -> u64
    requires { (PairRoom count m times.now extras.now) × (count ≤ 256) × (base % 64 ≡ 0) × (Room count state.old) × (units ≤ 1024) × (units * count ≤ length list.now) }
    ensures { Entered list.now times.now extras.now m u units base count state.old state.new result }
{
    if u >= units {
        return 0;
    }
    give_list(list, times, extras, m, u, base, count, state);
    imply::conflicts(state, count)
}

// The lanes wanted of 64 sequences, from number `base` on, by how they end; no unit is run after all of them have.
fn end_block(
    setup: &Setup,
    free: &[u8],
    list: &[u8],
    times: &[usize],
    extras: &[u8],
    m: usize,
    base: usize,
    wanted: u64,
    given: &GivenFaults,
    feed: &mut [u64],
    words: &mut [u64],
    state: &mut [u64],
) -> Ends
    requires { (Runs setup.now given.now.hits.now given.now.masks.now feed.old words.old state.old) × (L setup.now.circuit.now setup.now.test.now * O setup.now.circuit.now ≤ length free.now)
        × (L setup.now.circuit.now setup.now.test.now * F setup.now.circuit.now ≤ length list.now) × (PairRoom (F setup.now.circuit.now) m times.now extras.now) × (base % 64 ≡ 0) }
    ensures { BlockEnded setup.now.circuit.now setup.now.test.now free.now list.now times.now extras.now given.now.hits.now given.now.masks.now m base wanted result }
{
    start_block(
        setup.circuit,
        list,
        times,
        extras,
        m,
        base,
        setup.job.flops,
        state,
    );
    let mut ends = Ends {
        differing: 0,
        clashing: 0,
        surviving: wanted,
    };
    for u in 0..setup.job.units {
        let opposing = pass_unit(setup, u, free, given, feed, words, state);
        let conflicts = enter_unit(
            list,
            times,
            extras,
            m,
            u + 1,
            setup.job.units,
            base,
            setup.job.flops,
            state,
        );
        ends = ends.turn(opposing, conflicts);
        if ends.surviving == 0 {
            return ends;
        }
    }
    ends
}

// How many of the 2^m sequences of m taken pairs end differing, clashing, surviving, with the fault that all lanes have. `free` has the fault-free
// responses and `list` the state list, a row a unit; `times` the pairs' units; `extras` two rows a pair, for 0 and for 1.
pub fn count_endings(
    setup: &Setup,
    free: &[u8],
    list: &[u8],
    times: &[usize],
    extras: &[u8],
    m: usize,
    given: &GivenFaults,
    feed: &mut [u64],
    words: &mut [u64],
    state: &mut [u64],
) -> Endings
    requires { (Runs setup.now given.now.hits.now given.now.masks.now feed.old words.old state.old) × (L setup.now.circuit.now setup.now.test.now * O setup.now.circuit.now ≤ length free.now)
        × (L setup.now.circuit.now setup.now.test.now * F setup.now.circuit.now ≤ length list.now) × (PairRoom (F setup.now.circuit.now) m times.now extras.now) }
    ensures { Counted setup.now.circuit.now setup.now.test.now free.now list.now times.now extras.now given.now.hits.now given.now.masks.now m result }
{
    let total: usize = 1 << m;
    let mut found = Endings {
        differing: 0,
        clashing: 0,
        surviving: 0,
    };
    for base in (0..total).step_by(64) {
        let size = tally::block(total - base);
        let ends = end_block(
            setup,
            free,
            list,
            times,
            extras,
            m,
            base,
            tally::first_lanes(size),
            given,
            feed,
            words,
            state,
        );
        found = found.add(ends);
    }
    found
}
