// The pairs that Choose proposes for a fault, in arrays that are lent: its plain run beside the fault-free one, which is stage 1; stages 2 to 4; and
// where they all leave it open the picks.
#![tactic(auto)]

ghost use Rattle.std.proofs.Math.Option.{none};
ghost use Rattle.std.specs.Prelude.{◌≡◌, length};
ghost use Rattle.model.specs.Inputs.{fault_at};
ghost use Rattle.model.specs.Accepted.{ChooseReady};
ghost use Rattle.model.specs.Grade.{stage1};
ghost use Rattle.model.specs.Choose.{chosen};
ghost use Rattle.fault.specs.Fault.{PlainTables};
ghost use Rattle.pick.specs.Pick.{Records};
ghost use Rattle.propose.specs.Room.{Works};

use run::Setup;
use stages::Middle;
use trial::Pair;
use unit::GivenFaults;

// The picks of the list's fault, which stage 1 leaves open, from the tables of its plain run, of which the work area has the fault's responses:
// none where stages 2 to 4 give a verdict.
fn propose_open(
    setup: &Setup,
    fs: &[u8],
    k: usize,
    hits: &mut [u8],
    masks: &mut [u64],
    feed: &mut [u64],
    words: &mut [u64],
    state: &mut [u64],
    free: &[u8],
    states: &[u8],
    list: &mut [u8],
    nout: &mut [usize],
    merits: &mut [usize],
    extras: &mut [u8],
    work: &mut [u8],
    res: &mut [u8],
) -> usize
    requires { (ChooseReady setup.now.circuit.now setup.now.test.now fs.now k (length work.old) (length res.old))
        × (Works setup.now hits.old masks.old feed.old words.old state.old free.now states.now list.old nout.old merits.old extras.old)
        × (stage1 setup.now.circuit.now setup.now.test.now (fault_at fs.now 0) ≡ none) × (PlainTables setup.now.circuit.now setup.now.test.now free.now work.old states.now (fault_at fs.now 0)) }
    ensures { Records (chosen setup.now.circuit.now setup.now.test.now (fault_at fs.now 0) k) res.old res.new result }
{
    let mut pairs = [Pair { unit: 0, bit: 0 }; 32];
    let mut row = [0u8; 256];
    let mut times = [0usize; 12];
    let f = circuit::fault_of(fs, 0);
    faults::give_all(hits, masks, f.line, f.pin, f.value);
    let middle = stages::middle_stages(
        setup,
        free,
        work,
        states,
        &GivenFaults {
            hits: &*hits,
            masks: &*masks,
        },
        feed,
        words,
        state,
        &mut pairs,
        &mut row,
        list,
        nout,
    );
    match middle {
        Middle::Nothing | Middle::Decided(_) => 0,
        Middle::Open(left) => pick::choose_pairs(
            setup,
            free,
            states,
            list,
            nout,
            left,
            k,
            &GivenFaults {
                hits: &*hits,
                masks: &*masks,
            },
            feed,
            words,
            state,
            &mut pairs,
            merits,
            &mut times,
            extras,
            work,
            res,
        ),
    }
}

// The records of an accepted job: how many there are.
pub fn propose(
    setup: &Setup,
    fs: &[u8],
    k: usize,
    hits: &mut [u8],
    masks: &mut [u64],
    feed: &mut [u64],
    words: &mut [u64],
    state: &mut [u64],
    free: &mut [u8],
    states: &mut [u8],
    list: &mut [u8],
    nout: &mut [usize],
    merits: &mut [usize],
    extras: &mut [u8],
    work: &mut [u8],
    res: &mut [u8],
) -> usize
    requires { (ChooseReady setup.now.circuit.now setup.now.test.now fs.now k (length work.old) (length res.old))
        × (Works setup.now hits.old masks.old feed.old words.old state.old free.old states.old list.old nout.old merits.old extras.old) }
    ensures { Records (chosen setup.now.circuit.now setup.now.test.now (fault_at fs.now 0) k) res.old res.new result }
{
    if places::run_beside(
        setup, fs, 0, hits, masks, feed, words, state, free, work, states,
    ) {
        return 0;
    }
    propose_open(
        setup, fs, k, hits, masks, feed, words, state, free, states, list, nout, merits, extras,
        work, res,
    )
}
