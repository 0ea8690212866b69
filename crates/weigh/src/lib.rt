// Weighing pairs for Choose: of each pair of a time unit and a flip-flop, whether stage 5 would take it next, and how many bits its two extras give.
// That is kept in a table, so that a pick works out no implication: after it only the pairs that it may touch are weighed again.
#![tactic(auto)]

ghost use Rattle.std.specs.Prelude.{◌≡◌, true, ◌+◌, ◌*◌, ◌/◌, ◌<◌, ◌≤◌, length};
ghost use Rattle.lists.specs.Field.{row_of};
ghost use Rattle.model.specs.Inputs.{F, O, L};
ghost use Rattle.model.specs.Choose.{size};
ghost use Rattle.lanes.specs.Lane.{Room};
ghost use Rattle.run.specs.Run.{Runs};
ghost use Rattle.expand.specs.Expand.{is_x, pair_at};
ghost use Rattle.stages.specs.Stages.{RowRoom};
ghost use Rattle.weigh.specs.Weigh.{UnitRows, EntryMade, WeighedAt, WeighedWord, WeighedFrom, WeighedFirst, WeighedStart};

use run::Setup;
use stages::{Times, Trials};
use unit::GivenFaults;

// How many bits the extra in row r gives.
fn row_size(count: usize, extras: &[u8], r: usize) -> usize
    requires { count * r + count ≤ length extras.now }
    ensures { (result ≡ size (row_of count extras.now r)) × (result ≤ count) }
{
    let at = count * r;
    let to = at + count;
    rows::specified(&extras[at..to], count)
}

// An entry of zeros is that of no pair: the table is a part of the work area, four bytes for each.
// The entry of a pair at unit u, whose extras are in the rows of pair m, behind those of the pairs taken.
fn enter(
    count: usize,
    list: &[u8],
    u: usize,
    times: &Times,
    m: usize,
    extras: &[u8],
    entry: &mut [u8],
)
    requires { (count * u + count ≤ length list.now) × (m < 12) × (24 * count ≤ length extras.now) × (4 ≤ length entry.old) }
    ensures { EntryMade count list.now u times.now m extras.now entry.old entry.new }
{
    if take::touches(count, list, u, times, m, extras) {
        record::put_two(entry, 0, 0);
        return;
    }
    let zero = row_size(count, extras, 2 * m);
    let one = row_size(count, extras, 2 * m + 1);
    record::put_two(entry, zero.min(one) + 1, zero.max(one));
}

// The entry of the pair at position e, which is pair p of a word if its bit is X in the state list.
fn weigh_at(
    count: usize,
    states: &[u8],
    list: &[u8],
    after: &[u64],
    marks: u64,
    p: usize,
    e: usize,
    m: usize,
    times: &Times,
    extras: &mut [u8],
    table: &mut [u8],
)
    requires { (0 < count) × (count * (e / count) + count ≤ length states.now) × (count * (e / count) + count ≤ length list.now) × (Room count after.now) × (is_x list.now e ≡ true → p < 32) × (m < 12)
        × (24 * count ≤ length extras.old) × (4 * e + 4 ≤ length table.old) }
    ensures { WeighedAt count states.now list.now after.now marks p e m times.now extras.old table.old
        extras.new table.new }
{
    let at = 4 * e;
    if list[e] != 2 {
        record::put_two(&mut table[at..], 0, 0);
        return;
    }
    let u = e / count;
    take::lane_extra(count, states, u, after, marks, 2 * p, 2 * m, extras);
    take::lane_extra(count, states, u, after, marks, 2 * p + 1, 2 * m + 1, extras);
    enter(count, list, u, times, m, extras, &mut table[at..]);
}

// The entries of the pairs of a word, from position `at` to `next`.
fn weigh_word(
    count: usize,
    states: &[u8],
    list: &[u8],
    after: &[u64],
    marks: u64,
    at: usize,
    next: usize,
    m: usize,
    times: &Times,
    extras: &mut [u8],
    table: &mut [u8],
)
    requires { (0 < count) × (at ≤ next) × (UnitRows count next states.now) × (UnitRows count next list.now) × (Room count after.now) × (pair_at list.now at next ≤ 32) × (m < 12)
        × (24 * count ≤ length extras.old) × (4 * next ≤ length table.old) }
    ensures { WeighedWord count states.now list.now after.now marks at next m times.now extras.old table.old
        extras.new table.new }
{
    let mut p = 0;
    for e in at..next {
        weigh_at(
            count, states, list, after, marks, p, e, m, times, extras, table,
        );
        p += usize::from(list[e] == 2);
    }
}

// The entry of (0, i).
fn weigh_first(
    count: usize,
    list: &[u8],
    i: usize,
    m: usize,
    times: &Times,
    extras: &mut [u8],
    table: &mut [u8],
)
    requires { (count ≤ 256) × (i < count) × (count ≤ length list.now) × (m < 12) × (24 * count ≤ length extras.old) × (4 * i + 4 ≤ length table.old) }
    ensures { WeighedFirst count list.now i m times.now extras.old table.old extras.new table.new }
{
    let at = 4 * i;
    if list[i] != 2 {
        record::put_two(&mut table[at..], 0, 0);
        return;
    }
    take::first_extras(count, i, m, extras);
    enter(count, list, 0, times, m, extras, &mut table[at..]);
}

// The entries of unit 0, whose pairs need no trial, from position `from` to `to`: the position behind them.
fn weigh_start(
    count: usize,
    list: &[u8],
    from: usize,
    to: usize,
    m: usize,
    times: &Times,
    extras: &mut [u8],
    table: &mut [u8],
) -> usize
    requires { (count ≤ 256) × (count ≤ length list.now) × (m < 12) × (24 * count ≤ length extras.old) × (4 * to ≤ length table.old) }
    ensures { WeighedStart count list.now from to m times.now extras.old table.old
        extras.new table.new result }
{
    let end = count.min(to).max(from);
    for i in from..end {
        weigh_first(count, list, i, m, times, extras, table);
    }
    end
}

// The entries of the pairs from position `from` to `to`: those of unit 0, and then a word of up to 32 pairs after another. A word ends where it is
// full, and not so many positions behind where it begins: hence no loop over a range.
pub fn weigh(
    setup: &Setup,
    free: &[u8],
    states: &[u8],
    list: &[u8],
    from: usize,
    to: usize,
    m: usize,
    given: &GivenFaults,
    feed: &mut [u64],
    words: &mut [u64],
    state: &mut [u64],
    pairs: &mut Trials,
    times: &Times,
    extras: &mut [u8],
    table: &mut [u8],
)
    requires { (Runs setup.now given.now.hits.now given.now.masks.now feed.old words.old state.old)
        × (from ≤ to) × (to ≤ L setup.now.circuit.now setup.now.test.now * F setup.now.circuit.now) × (m < 12) × (4 * to ≤ length table.old)
        × (L setup.now.circuit.now setup.now.test.now * O setup.now.circuit.now ≤ length free.now) × (RowRoom setup.now.circuit.now setup.now.test.now states.now) × (RowRoom setup.now.circuit.now setup.now.test.now list.now) × (24 * F setup.now.circuit.now ≤ length extras.old) }
    ensures { WeighedFrom setup.now.circuit.now setup.now.test.now free.now states.now list.now given.now.hits.now
        given.now.masks.now from to m times.now extras.old table.old extras.new table.new }
{
    let mut at = weigh_start(setup.job.flops, list, from, to, m, times, extras, table);
    while at < to {
        let batch = expand::fill(setup.job.flops, list, at, to, pairs);
        let marks = trial::try_pairs(
            setup,
            free,
            states,
            &pairs[..batch.count],
            given,
            feed,
            words,
            state,
        );
        unit::next_state(
            setup.circuit,
            setup.flops,
            setup.job.flops,
            given,
            words,
            state,
        );
        weigh_word(
            setup.job.flops,
            states,
            list,
            state,
            marks,
            at,
            batch.next,
            m,
            times,
            extras,
            table,
        );
        at = batch.next;
    }
}
