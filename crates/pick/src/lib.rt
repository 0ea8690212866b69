// Picking pairs for Choose, one after another, each the best of those that stage 5 would take next. Before the first pick all pairs are weighed, and
// before another those that the pick before it may touch.
#![tactic(auto)]

ghost use Rattle.std.specs.Prelude.{◌≡◌, ◌+◌, ◌*◌, ◌<◌, ◌≤◌, length};
ghost use Rattle.model.specs.Inputs.{F, L};
ghost use Rattle.best.specs.Best.{AtMost, most_nout, most_merit};
ghost use Rattle.run.specs.Run.{Runs};
ghost use Rattle.pick.specs.Pick.{reach_of, Touched, PickRoom, AllPicked, ChosenFrom};

use run::Setup;
use stages::{Times, Trials};
use unit::GivenFaults;

// How many units may have a pair that is taken: the first, and those behind a unit with Nout above 0.
#[tactic(auto, unfolding(crate::specs::Pick::reach_of))]
fn reached(units: usize, left: usize) -> usize
    ensures { result ≡ reach_of units left }
{
    if left < units {
        return left + 1;
    }
    units
}

// Positions of the table, from one to another.
#[derive(Clone, Copy)]
pub struct Span {
    pub from: usize,
    pub to: usize,
}

// The entries that a pick of (u, i) may change: those of its unit, and at unit 0, where an extra is the pair's own bit, its own entry alone.
fn touched(count: usize, u: usize, i: usize) -> Span
    requires { (i < count) × (count * u + count ≤ 262144) }
    ensures { Touched count u i result }
{
    if u == 0 {
        return Span { from: i, to: i + 1 };
    }
    let from = count * u;
    Span {
        from,
        to: from + count,
    }
}

// Up to k picks, each written as a plan record: how many there are. The entries of `span` are those that a pick is to weigh first.
fn pick_pairs(
    setup: &Setup,
    free: &[u8],
    states: &[u8],
    list: &[u8],
    left: usize,
    reach: usize,
    k: usize,
    merits: &[usize],
    given: &GivenFaults,
    feed: &mut [u64],
    words: &mut [u64],
    state: &mut [u64],
    pairs: &mut Trials,
    times: &mut Times,
    extras: &mut [u8],
    table: &mut [u8],
    res: &mut [u8],
) -> usize
    requires { (Runs setup.now given.now.hits.now given.now.masks.now feed.old words.old state.old) × (reach ≤ L setup.now.circuit.now setup.now.test.now) × (k ≤ 12)
        × (4 * (F setup.now.circuit.now * reach) ≤ length table.old) × (4 * k ≤ length res.old) × (AtMost most_merit reach merits.now)
        × (PickRoom setup.now.circuit.now setup.now.test.now free.now states.now list.now merits.now extras.old) }
    ensures { AllPicked setup.now.circuit.now setup.now.test.now free.now states.now list.now given.now.hits.now
        given.now.masks.now merits.now left reach k res.old res.new result }
{
    let mut span = Span {
        from: 0,
        to: setup.job.flops * reach,
    };
    for m in 0..k {
        weigh::weigh(
            setup, free, states, list, span.from, span.to, m, given, feed, words, state, pairs,
            times, extras, table,
        );
        let Some(best) = best::best_pair(reach, setup.job.flops, merits, table) else {
            return m;
        };
        take::take_pair(
            setup, free, states, list, left, best.unit, best.bit, k, m, given, feed, words, state,
            times, extras,
        );
        let at = 4 * m;
        record::put_two(&mut res[at..], best.unit, best.bit);
        span = touched(setup.job.flops, best.unit, best.bit);
    }
    k
}

// The picks of a fault that stages 1 to 4 leave open. The work area holds the table of entries.
pub fn choose_pairs(
    setup: &Setup,
    free: &[u8],
    states: &[u8],
    list: &[u8],
    nout: &[usize],
    left: usize,
    k: usize,
    given: &GivenFaults,
    feed: &mut [u64],
    words: &mut [u64],
    state: &mut [u64],
    pairs: &mut Trials,
    merits: &mut [usize],
    times: &mut Times,
    extras: &mut [u8],
    work: &mut [u8],
    res: &mut [u8],
) -> usize
    requires { (Runs setup.now given.now.hits.now given.now.masks.now feed.old words.old state.old) × (k ≤ 12) × (4 * (L setup.now.circuit.now setup.now.test.now * F setup.now.circuit.now) ≤ length work.old)
        × (4 * k ≤ length res.old) × (AtMost most_nout (L setup.now.circuit.now setup.now.test.now) nout.now) × (L setup.now.circuit.now setup.now.test.now ≤ length nout.now)
        × (PickRoom setup.now.circuit.now setup.now.test.now free.now states.now list.now merits.old extras.old) }
    ensures { ChosenFrom setup.now.circuit.now setup.now.test.now free.now states.now list.now given.now.hits.now given.now.masks.now nout.now left k
        res.old res.new result }
{
    let reach = reached(setup.job.units, left);
    best::set_merits(reach, setup.job.flops, states, nout, merits);
    pick_pairs(
        setup, free, states, list, left, reach, k, merits, given, feed, words, state, pairs, times,
        extras, work, res,
    )
}
