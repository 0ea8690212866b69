// Stage 1 of Grade for up to 64 faults at once, one to a lane: the first place at which an output opposes what the fault-free circuit shows,
// by time unit and in it by line. Once every lane has its place the run ends. On the way the same outputs tell stage 2's condition of the
// lanes that have none: whether some place is specified fault-free and X faulty.
#![tactic(auto)]

ghost use Rattle.std.specs.Prelude.{◌*◌, ◌<◌, ◌≤◌, length};
ghost use Rattle.model.specs.Inputs.{O, L};
ghost use Rattle.run.specs.Run.{Runs};
ghost use Rattle.plain.specs.Places.{Noted, Places};

use run::Setup;
use unit::GivenFaults;

// Unit u and this line are noted for each of the new lanes; mostly there are none.
fn note(new: u64, u: usize, line: usize, times: &mut [usize], lines: &mut [usize])
    requires { (64 ≤ length times.old) × (64 ≤ length lines.old) }
    ensures { Noted new u line times.old lines.old times.new lines.new }
{
    if new == 0 {
        return;
    }
    for t in 0..64 {
        if tally::has_lane(new, t) {
            times[t] = u;
            lines[t] = line;
        }
    }
}

// The lanes that have a place, with its unit and its line, and those with an output that is X where its fault-free value is specified.
#[derive(Clone, Copy)]
pub struct Firsts {
    pub found: u64,
    pub left: u64,
    pub times: [usize; 64],
    pub lines: [usize; 64],
}

// The lanes below count that have a place in the first so many units, whose time and line are noted; of those that have none, which have
// something left to show there.
pub fn first_places(
    setup: &Setup,
    free: &[u8],
    count: usize,
    units: usize,
    given: &GivenFaults,
    feed: &mut [u64],
    words: &mut [u64],
    state: &mut [u64],
) -> Firsts
    requires { (Runs setup.now given.now.hits.now given.now.masks.now feed.old words.old state.old) × (L setup.now.circuit.now setup.now.test.now * O setup.now.circuit.now ≤ length free.now)
        × (count ≤ 64) × (units ≤ L setup.now.circuit.now setup.now.test.now) }
    ensures { Places setup.now.circuit.now setup.now.test.now free.now count units given.now.hits.now given.now.masks.now state.old result.times result.lines result }
{
    let wanted = tally::first_lanes(count);
    let mut times = [0usize; 64];
    let mut lines = [0usize; 64];
    let mut found: u64 = 0;
    let mut left: u64 = 0;
    'units: for u in 0..units {
        let at = setup.job.outputs * u;
        run::values_at(
            setup.circuit,
            setup.pins,
            setup.job.lines,
            setup.job.inputs,
            setup.test,
            u,
            state,
            given,
            feed,
            words,
        );
        for o in 0..setup.job.outputs {
            let n = setup.outs[o];
            let x = lanes::read(words, n);
            let response = free[at + o];
            let new = x.opposing(response) & (wanted ^ found);
            left |= x.unknown(response);
            note(new, u, n, &mut times, &mut lines);
            found |= new;
            if found == wanted {
                break 'units;
            }
        }
        unit::next_state(
            setup.circuit,
            setup.flops,
            setup.job.flops,
            given,
            words,
            state,
        );
    }
    Firsts {
        found,
        left,
        times,
        lines,
    }
}
