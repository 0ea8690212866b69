// One text line of a bench text: 18 to 20 of it, and the record of the circuit line that it defines.
#![tactic(auto)]

ghost use Rattle.std.specs.Prelude.{true, cond, not, ◌&&◌, ◌≡◌, ℕ, ◌+◌, ◌*◌, ◌<◌, ◌≤◌, leb, ltb, get_or, length};
ghost use Rattle.lists.specs.Scan.{any_below};
ghost use Rattle.lists.specs.Field.{overwritten};
ghost use Rattle.sentences.specs.Line.{defines};
ghost use Rattle.definitions.specs.Tables.{HeldAs};
ghost use Rattle.bench_line.specs.Pins.{PinsKept, pin_line_of, own_line, reach_from, LineChecked, record_of};

use definitions::Definitions;
use parts::Part;
use rules::{Refusal, Rule, refuse};
use sentences::{Line, Sort};

// The lines that the pins name, put into `lines`; whether each is below `reach`.
fn resolve(
    defined: Definitions,
    parts: &[Part],
    first: usize,
    pins: usize,
    reach: usize,
    lines: &mut [usize],
) -> bool
    requires { HeldAs defined × PinsKept defined.text.now parts.now first pins × (length lines.old ≡ 4) }
    ensures room { length lines.new ≡ 4 }
    ensures below { result ≡ not (any_below (λ i. leb reach (pin_line_of defined.entry.text.now parts.now first i)) pins) }
    ensures finds { result ≡ true → (i : ℕ) → i < pins → get_or lines.new i 0 ≡ pin_line_of defined.entry.text.now parts.now first i }
{
    for i in 0..pins {
        let name = sentences::token(defined.text, parts, first + 2 * i);
        let n = defined.find(name);
        if reach <= n {
            return false;
        }
        lines[i] = n;
    }
    true
}

// Whether the text line defines a name that one of the lines above has.
#[tactic(auto, unfolding(crate::specs::Pins::own_line))]
fn defined_again(defined: Definitions, line: Line, above: usize) -> bool
    requires { HeldAs defined × (line.name.at + line.name.size ≤ length defined.text.now) }
    ensures { result ≡ (defines line.sort && ltb (own_line defined.entry.text.now line) above) }
{
    match line.sort {
        Sort::Defines(_) => defined.find(line.name.bytes(defined.text)) < above,
        _ => false,
    }
}

// Where the lines that a text line may name end: at the line that it defines for a gate, at the number of lines for any other.
#[tactic(auto, unfolding(crate::specs::Pins::reach_from))]
fn reach_of(sort: Sort, above: usize, lines: usize) -> usize
    ensures { result ≡ reach_from sort above lines }
{
    match sort {
        Sort::Defines(kind) if 2 <= kind => above,
        _ => lines,
    }
}

// 18 to 20 of text line j, which has so many definitions above it; where it passes, the lines that its pins name are in `lines`.
pub fn check_line(
    defined: Definitions,
    parts: &[Part],
    line: Line,
    above: usize,
    j: usize,
    lines: &mut [usize],
) -> Result<(), Refusal>
    requires { HeldAs defined × PinsKept defined.text.now parts.now line.first line.pins × (length lines.old ≡ 4) × (line.name.at + line.name.size ≤ length defined.text.now) }
    ensures room { length lines.new ≡ 4 }
    ensures checks { LineChecked defined.entry.text.now parts.now defined.entry.known.lines line above j lines.new result }
{
    let reach = reach_of(line.sort, above, defined.known.lines);
    let again = defined_again(defined, line, above);
    let found = resolve(defined, parts, line.first, line.pins, reach, lines);
    let malformed = matches!(line.sort, Sort::Malformed);
    refuse(malformed, Rule::TextForm, j)?;
    refuse(again, Rule::DefinedAgain, j)?;
    refuse(!found, Rule::NotDefined, j)
}

// The line that pin i + 1 of so many names, and 0 for an unused one.
fn field(lines: &[usize], pins: usize, i: usize) -> usize
    requires { i < length lines.now }
    ensures { result ≡ cond (ltb i pins) (get_or lines.now i 0) 0 }
{
    if i < pins { lines[i] } else { 0 }
}

// The record of a line of this kind at the area's beginning, with the mark that stands there, which is written again, and the lines that its
// pins name.
pub fn write_line(area: &mut [u8], kind: u8, pins: u8, lines: &[usize])
    requires { (12 ≤ length area.old) × (length lines.now ≡ 4) }
    ensures { area.new ≡ overwritten (record_of kind pins (get_or area.old 2 0) lines.now) area.old }
{
    let count = usize::from(pins);
    let mark = area[2];
    area[0] = kind;
    area[1] = pins;
    area[2] = mark;
    area[3] = 0;
    record::put16(area, 4, field(lines, count, 0));
    record::put16(area, 6, field(lines, count, 1));
    record::put16(area, 8, field(lines, count, 2));
    record::put16(area, 10, field(lines, count, 3));
}
