// The faults of the lanes, given and taken back: one fault in all lanes, or a batch of the list's faults, one to a lane.
// A line with a fault has a row of five masks. A batch of so many faults uses at most as many rows, from row 1 on; taking it back clears these
// and the bytes of its lines, and nothing else.
#![tactic(auto)]

ghost use Rattle.std.specs.Prelude.{◌≡◌, ℕ, ◌+◌, ◌*◌, ◌<◌, ◌≤◌, length, get_or};
ghost use Rattle.model.specs.Inputs.{Fault};
ghost use Rattle.lanes.specs.Lane.{lanes_at, all_x};
ghost use Rattle.unit.specs.Unit.{Stuck, MaskRoom};
ghost use Rattle.faults.specs.Given.{Blank, OnlyAt, RowsTo, InRows, OneMore, Batch, Named, Given};

use lanes::Lanes;

// One and the same fault in all lanes.
pub fn give_all(hits: &mut [u8], masks: &mut [u64], line: usize, pin: usize, stuck: u8)
    requires { (Blank hits.old masks.old) × (line < length hits.old) × (MaskRoom masks.old) × (pin < 5) × (stuck < 2) }
    ensures { (OnlyAt line pin hits.new masks.new)
        × ((t : ℕ) (f : Fault) → t < 64 → f.line ≡ line → f.pin ≡ pin → f.value ≡ stuck → Stuck t hits.new masks.new f) }
{
    hits[line] = 1;
    lanes::store(masks, 5 + pin, Lanes::all(stuck));
}

// That fault taken back.
pub fn take_all(hits: &mut [u8], masks: &mut [u64], line: usize, pin: usize)
    requires { (OnlyAt line pin hits.old masks.old) × (line < length hits.old) × (MaskRoom masks.old) × (pin < 5) }
    ensures { Blank hits.new masks.new }
{
    hits[line] = 0;
    lanes::store(masks, 5 + pin, Lanes::X);
}

// One lane more, t, with a fault of its own. The fault's line has a row already, or gets row t + 1.
pub fn give(hits: &mut [u8], masks: &mut [u64], t: usize, line: usize, pin: usize, stuck: u8)
    requires { (t < 64) × (line < length hits.old) × (length hits.old ≤ 65536) × (MaskRoom masks.old) × (pin < 5) × (stuck < 2) }
    ensures { ((n : ℕ) → (n ≡ line → ⊥) → get_or hits.new n 0 ≡ get_or hits.old n 0)
        × ((before after : ℕ → Fault) → OneMore t line pin stuck before after → InRows t hits.old masks.old before
        → InRows (t + 1) hits.new masks.new after) }
{
    if hits[line] == 0 {
        hits[line] = (t + 1) as u8;
    }
    let at = 5 * usize::from(hits[line]) + pin;
    let x = lanes::read(masks, at);
    lanes::store(masks, at, x.with(t, stuck));
}

// A batch of faults, one to a lane from lane 0 on.
pub fn give_batch(fs: &[u8], from: usize, count: usize, hits: &mut [u8], masks: &mut [u64])
    requires { (Blank hits.old masks.old) × (Batch fs.now from count (length hits.old)) × (length hits.old ≤ 65536) × (MaskRoom masks.old) }
    ensures { Given fs.now from count hits.new masks.new }
{
    for t in 0..count {
        let f = circuit::fault_of(fs, from + t);
        give(hits, masks, t, f.line, f.pin, f.value);
    }
}

// The lines of a batch lose their rows.
fn close_lines(fs: &[u8], from: usize, count: usize, hits: &mut [u8])
    requires { (Batch fs.now from count (length hits.old)) × (Named fs.now from (from + count) hits.old) }
    ensures { (n : ℕ) → get_or hits.new n 0 ≡ 0 }
{
    for j in from..from + count {
        let n = circuit::fault_of(fs, j).line;
        hits[n] = 0;
    }
}

// Rows 1 to count are cleared.
fn clear_rows(masks: &mut [u64], count: usize)
    requires { (RowsTo count masks.old) × (count ≤ 64) × (MaskRoom masks.old) }
    ensures { (m : ℕ) → lanes_at masks.new m ≡ all_x }
{
    for m in 5..5 * (count + 1) {
        lanes::store(masks, m, Lanes::X);
    }
}

// That batch taken back.
pub fn take_batch(fs: &[u8], from: usize, count: usize, hits: &mut [u8], masks: &mut [u64])
    requires { (Batch fs.now from count (length hits.old)) × (Given fs.now from count hits.old masks.old) × (MaskRoom masks.old) }
    ensures { Blank hits.new masks.new }
{
    close_lines(fs, from, count, hits);
    clear_rows(masks, count);
}
