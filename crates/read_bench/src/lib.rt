// The calls that read bench text: `read_bench`, which writes a circuit's records, and `name_of`, which hands back the name of a line. A text is
// walked twice: once to hold the names of its lines, and once to check its text lines in order and to write the records.
#![tactic(auto)]

ghost use Rattle.std.specs.Prelude.{◌≡◌, ℕ, ◌+◌, ◌<◌, length, replicate};
ghost use Rattle.lists.specs.Field.{row_of};
ghost use Rattle.bench_text.specs.Bench.{text_rows, read_answer, read_area, name_part, name_of};
ghost use Rattle.bench_text.specs.Promises.{ReadsBench};
ghost use Rattle.rules.specs.Check.{refusal_of};
ghost use Rattle.job.specs.Job.{answer_of};
ghost use Rattle.lookup.specs.Lookup.{Held};
ghost use Rattle.definitions.specs.Tables.{HeldAs};
ghost use Rattle.read_bench.specs.Noted.{Noted, marked, defined, Noting, NotesLine, AllNoted, Inspected};

use definitions::Definitions;
use job::Outcome;
use lookup::{HEADS, HELD, NAMES};
use parts::NO_PART;
use rules::{Refusal, Rule, refuse};
use sentences::{Line, Sort};
use tokens::KEPT;

// Bytes for the records of the lines that are held, twelve a line.
pub const RECORDS: usize = 49152;

// Marks line n as an output.
fn mark(records: &mut [u8], n: usize)
    requires { (length records.old ≡ 49152) × (n < 4096) }
    ensures size { length records.new ≡ 49152 }
    ensures marks { (m : ℕ) → m < 4096 → row_of 12 records.new m ≡ marked records.old n m }
{
    records[12 * n + 2] = 1;
}

// Writes line n's record, but for its mark.
fn define(records: &mut [u8], n: usize, kind: u8, pins: u8, lines: &[usize])
    requires { (length records.old ≡ 49152) × (n < 4096) × (length lines.now ≡ 4) }
    ensures size { length records.new ≡ 49152 }
    ensures defines { (m : ℕ) → m < 4096 → row_of 12 records.new m ≡ defined records.old n kind pins lines.now m }
{
    let at = 12 * n;
    bench_line::write_line(&mut records[at..], kind, pins, lines);
}

// Writes what a text line says, with so many definitions above it, where there is room for all lines of its text.
fn note(records: &mut [u8], count: usize, above: usize, line: Line, lines: &[usize])
    requires { Noting records.old count above line lines.now }
    ensures { NotesLine records.old records.new count above line lines.now }
{
    if HELD < count {
        return;
    }
    match line.sort {
        Sort::Defines(kind) => define(records, above, kind, line.pins as u8, lines),
        Sort::Output => mark(records, lines[0]),
        Sort::Nothing | Sort::Malformed => {}
    }
}

// 18 to 20 of the text lines in order; the records are written as far as there is room for all lines.
fn check_lines(defined: Definitions, records: &mut [u8]) -> Result<(), Refusal>
    requires { HeldAs defined × Noted defined.text.now records.old 0 0 }
    ensures refusal { refusal_of result ≡ text_rows defined.entry.text.now }
    ensures writes { AllNoted defined.entry.text.now records.new result }
{
    let text = defined.text;
    let mut parts = [NO_PART; KEPT];
    let mut lines = [0usize; 4];
    let mut at: usize = 0;
    let mut j: usize = 0;
    let mut above: usize = 0;
    // Each text line tells where the next begins.
    while at < text.len() {
        let line = sentences::read_line(text, at, &mut parts);
        bench_line::check_line(defined, &parts, line, above, j, &mut lines)?;
        note(records, defined.known.lines, above, line, &lines);
        if let Sort::Defines(_) = line.sort {
            above += 1;
        }
        at = line.next;
        j += 1;
    }
    Ok(())
}

// What a text is refused by but for its area, or how many lines it defines; then their names are held and their records written.
pub fn inspect(text: &[u8], names: &mut [usize], heads: &mut [usize], records: &mut [u8]) -> Outcome
    requires { Held text.now names.old heads.old 0 × (records.old ≡ replicate 49152 0) }
    ensures { Inspected text.now names.new heads.new records.new result }
{
    let known = definitions::collect(text, names, heads);
    let defined = Definitions {
        text,
        names: &*names,
        heads: &*heads,
        known,
    };
    check_lines(defined, records)?;
    let count = known.lines;
    refuse(HELD < count, Rule::CircuitLength, 0)?;
    let size = 12 * count;
    rules::check_circuit(&records[..size])?;
    Ok(count)
}

// The circuit that a bench text describes; see README.md, Calls.
pub fn read_bench(text: &[u8], res: &mut [u8]) -> Outcome
    ensures answers { answer_of result ≡ read_answer text.now (length res.old) }
    ensures writes { res.new ≡ read_area text.now res.old }
    ensures promise { ReadsBench text.now (answer_of result) res.new }
{
    let mut names = [0usize; NAMES];
    let mut heads = [0usize; HEADS];
    let mut records = [0u8; RECORDS];
    let count = inspect(text, &mut names, &mut heads, &mut records)?;
    let size = 12 * count;
    refuse(res.len() < size, Rule::ResultArea, 0)?;
    res[..size].copy_from_slice(&records[..size]);
    Ok(count)
}

// The name of a line, as the part of the text where it is defined; see README.md, Calls.
pub fn name_of(text: &[u8], line: usize) -> &[u8]
    ensures bytes { result.now ≡ name_of text.now line }
    ensures place { (result.ref_ptr.0 ≡ text.entry.ref_ptr.0) × (result.ref_ptr.1 ≡ (name_part text.now line).at + text.entry.ref_ptr.1) }
{
    let mut names = [0usize; NAMES];
    let mut heads = [0usize; HEADS];
    let mut records = [0u8; RECORDS];
    match inspect(text, &mut names, &mut heads, &mut records) {
        Ok(count) if line < count => lookup::name(text, &names, line),
        _ => &text[0..0],
    }
}
