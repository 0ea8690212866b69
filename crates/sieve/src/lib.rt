// Stage 1 of a whole list over the first units of its test, where most of the faults that it ends show themselves. Such a fault has its record;
// that of every other starts with 0, the mark of an open fault. Open faults are then packed, so that up to 64 of them share a run to the end.
#![tactic(auto)]

ghost use Rattle.std.specs.Prelude.{◌≡◌, ◌+◌, ◌*◌, ◌<◌, ◌≤◌, length};
ghost use Rattle.model.specs.Inputs.{L, fault_at, fault_count};
ghost use Rattle.model.specs.Accepted.{ValidInputs};
ghost use Rattle.faults.specs.Given.{Blank};
ghost use Rattle.record.specs.Record.{verdict_of};
ghost use Rattle.stages.specs.Stages.{IsTabled, Standing};
ghost use Rattle.sieve.specs.Sieve.{early, noted, WrittenTo, NotedTo, SievedAll, CopiedTo, Packed};

use plain::Firsts;
use record::Verdict;
use run::Setup;
use stages::LaneFaults;

// So many units come first. In a short test none do: its faults are run to the end at once.
fn early_units(units: usize) -> usize
    ensures { result ≤ units }
{
    if units < 32 {
        return 0;
    }
    8
}

// Verdict 1 where the lane has a place, else the mark of an open fault, a record of zeros: the area is lent, and each fault has a record in it.
fn early_verdict(firsts: &Firsts, lane: usize) -> Verdict
    requires { lane < 64 }
    ensures { verdict_of result ≡ noted firsts.now lane firsts.now.times firsts.now.lines }
{
    if tally::has_lane(firsts.found, lane) {
        return record::placed(1, firsts.times[lane], firsts.lines[lane]);
    }
    record::placed(0, 0, 0)
}

// The records of a batch, as its lanes have found them.
fn write_early(from: usize, count: usize, firsts: &Firsts, res: &mut [u8])
    requires { (count ≤ 64) × (16 * (from + count) ≤ length res.old) }
    ensures { NotedTo from count firsts.now firsts.now.times firsts.now.lines res.old res.new }
{
    for lane in 0..count {
        let at = 16 * (from + lane);
        let verdict = early_verdict(firsts, lane);
        record::write_record(&mut res[at..], verdict);
    }
}

// A batch over the first so many units: its places, and then its records.
fn sieve_batch(
    setup: &Setup,
    fs: &[u8],
    from: usize,
    count: usize,
    units: usize,
    free: &[u8],
    given: &mut LaneFaults,
    feed: &mut [u64; 512],
    words: &mut [u64; 8192],
    state: &mut [u64; 512],
    res: &mut [u8],
)
    requires { (IsTabled setup.now) × (Standing setup.now.circuit.now setup.now.test.now free.now) × (Blank given.old.hits given.old.masks)
        × (ValidInputs setup.now.circuit.now setup.now.test.now 0 32768 fs.now) × (count ≤ 64) × (from + count ≤ fault_count fs.now) × (units ≤ L setup.now.circuit.now setup.now.test.now) × (16 * fault_count fs.now ≤ length res.old) }
    ensures { (Blank given.new.hits given.new.masks) × (WrittenTo (λ j. early setup.now.circuit.now setup.now.test.now units (fault_at fs.now j)) from (from + count) res.old res.new) }
{
    let firsts = places::find_places(
        setup,
        fs,
        from,
        count,
        units,
        free,
        &mut given.hits,
        &mut given.masks,
        feed,
        words,
        state,
    );
    write_early(from, count, &firsts, res);
}

// The whole list, batch by batch.
pub fn sieve(
    setup: &Setup,
    fs: &[u8],
    free: &[u8],
    given: &mut LaneFaults,
    feed: &mut [u64; 512],
    words: &mut [u64; 8192],
    state: &mut [u64; 512],
    res: &mut [u8],
)
    requires { (IsTabled setup.now) × (Standing setup.now.circuit.now setup.now.test.now free.now) × (Blank given.old.hits given.old.masks)
        × (ValidInputs setup.now.circuit.now setup.now.test.now 0 32768 fs.now) × (16 * fault_count fs.now ≤ length res.old) }
    ensures { (Blank given.new.hits given.new.masks) × (SievedAll setup.now.circuit.now setup.now.test.now fs.now res.old res.new) }
{
    let count = fs.len() / 4;
    let units = early_units(setup.job.units);
    for from in (0..count).step_by(64) {
        let size = tally::block(count - from);
        sieve_batch(
            setup, fs, from, size, units, free, given, feed, words, state, res,
        );
    }
}

// A pack: so many open faults, all there are from where it begins up to `to`.
#[derive(Clone, Copy)]
pub struct Pack {
    pub size: usize,
    pub to: usize,
}

// Fault j of the list becomes fault s of the few.
fn copy_fault(fs: &[u8], j: usize, few: &mut [u8], s: usize)
    requires { (4 * j + 4 ≤ length fs.now) × (4 * s + 4 ≤ length few.old) }
    ensures { CopiedTo fs.now j s few.old few.new }
{
    let at = 4 * j;
    let place = 4 * s;
    few[place..place + 4].copy_from_slice(&fs[at..at + 4]);
}

// The open faults from one on, as many as there are lanes, as a list of their own; `result` has the records and marks of the list's first `most` faults.
pub fn next_pack(fs: &[u8], res: &[u8], from: usize, most: usize, few: &mut [u8]) -> Pack
    requires { (from ≤ most) × (4 * most ≤ length fs.now) × (16 * most ≤ length res.now) × (256 ≤ length few.old) }
    ensures { Packed fs.now res.now from most few.new result }
{
    let mut size = 0;
    for j in from..most {
        if size == 64 {
            return Pack { size, to: j };
        }
        if res[16 * j] == 0 {
            copy_fault(fs, j, few, size);
            size += 1;
        }
    }
    Pack { size, to: most }
}
