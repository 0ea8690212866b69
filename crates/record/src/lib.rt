// The verdict record of Grade: what it says of one fault, and its 16 bytes.
#![tactic(auto)]

ghost use Rattle.std.specs.Prelude.{◌++◌, ◌≡◌, ◌+◌, ◌≤◌, length};
ghost use Rattle.std.proofs.lemmas.List.Edits.{sets};
ghost use Rattle.lists.specs.Field.{bytes16, overwritten};
ghost use Rattle.model.specs.Grade.{placed, record_bytes};
ghost use Rattle.record.specs.Record.{verdict_of, carrying};

// The record's fields, in its order, as the numbers that its bytes have.
#[derive(Clone, Copy, Default)]
pub struct Verdict {
    pub verdict: u8,
    pub m: u8,
    pub time: usize,
    pub line: usize,
    pub differing: usize,
    pub clashing: usize,
    pub surviving: usize,
    pub start: usize,
}

// A verdict that names a place, or none: verdicts 1, 2 and 5.
pub fn placed(verdict: u8, time: usize, line: usize) -> Verdict
    ensures { verdict_of result ≡ placed verdict time line }
{
    Verdict {
        verdict,
        time,
        line,
        ..Verdict::default()
    }
}

// A verdict that carries m and the three counts: verdicts 3, 4, 6 and 7.
pub fn counted(
    verdict: u8,
    m: u8,
    differing: usize,
    clashing: usize,
    surviving: usize,
    start: usize,
) -> Verdict
    ensures { verdict_of result ≡ carrying verdict m differing clashing surviving start }
{
    Verdict {
        verdict,
        m,
        differing,
        clashing,
        surviving,
        start,
        ..Verdict::default()
    }
}

// A 16-bit field at a place: the number's low 16 bits, low byte first.
pub fn put16(area: &mut [u8], at: usize, value: usize)
    requires { at + 2 ≤ length area.old }
    ensures { area.new ≡ sets area.old at (bytes16 value) }
{
    let low = (value % 65536) as u16;
    area[at..at + 2].copy_from_slice(&low.to_le_bytes());
}

// Two 16-bit fields, at the area's beginning.
pub fn put_two(area: &mut [u8], first: usize, second: usize)
    requires { 4 ≤ length area.old }
    ensures { area.new ≡ overwritten (bytes16 first ++ bytes16 second) area.old }
{
    put16(area, 0, first);
    put16(area, 2, second);
}

// The record's 16 bytes, at the area's beginning.
pub fn write_record(area: &mut [u8], v: Verdict)
    requires { 16 ≤ length area.old }
    ensures { area.new ≡ overwritten (record_bytes (verdict_of v)) area.old }
{
    area[0] = v.verdict;
    area[1] = v.m;
    put16(area, 2, v.time);
    put16(area, 4, v.line);
    put16(area, 6, v.differing);
    put16(area, 8, v.clashing);
    put16(area, 10, v.surviving);
    put16(area, 12, v.start);
    put16(area, 14, 0);
}
