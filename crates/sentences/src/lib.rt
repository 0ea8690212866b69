// What a text line says: the four forms of a bench text, told from the line's tokens.
#![tactic(auto)]

ghost use Rattle.std.specs.Prelude.{true, false, not, ◌≡◌, ◌+◌, ◌-◌, ◌*◌, ◌<◌, ◌≤◌, length, take, drop, MatchOption};
ghost use Rattle.lists.specs.Scan.{any_below};
ghost use Rattle.bench_text.specs.Text.{bytes_of, next_line, up_to};
ghost use Rattle.bench_text.specs.Sentence.{kind_of, is, is_name, is_call, pin_tokens, is_pin, line_kind, is_head, is_line, gate_sentence, sentence, sentence_from};
ghost use Rattle.tokens.specs.Kept.{part_of, all_kept};
ghost use Rattle.sentences.specs.Line.{TokensKept, Tells};

use parts::{NO_PART, Part};

// What a text line is.
#[derive(Clone, Copy)]
pub enum Sort {
    // The definition of a line of this kind, a number: the record has it.
    Defines(u8),
    // OUTPUT of a name.
    Output,
    // Nothing but spaces and a comment.
    Nothing,
    // Of none of the forms.
    Malformed,
}

// What a text line says: its sort; the name that it defines, as a part of the text; its pins, of which the first is token `first` and each
// further one stands two tokens behind; and where the next text line begins.
#[derive(Clone, Copy)]
pub struct Line {
    pub sort: Sort,
    pub name: Part,
    pub first: usize,
    pub pins: usize,
    pub next: usize,
}

// Token i.
#[tactic(auto, unfolding(tokens::specs::Kept::part_of))]
pub fn token<'a>(text: &'a [u8], parts: &[Part], i: usize) -> &'a [u8]
    requires { (i < length parts.now) × ((part_of parts.now i).at + (part_of parts.now i).size ≤ length text.now) }
    ensures { result.now ≡ bytes_of text.now (part_of parts.now i) }
{
    parts[i].bytes(text)
}

// Whether token i is this word.
fn is(text: &[u8], parts: &[Part], i: usize, word: &[u8]) -> bool
    requires { TokensKept text.now parts.now × (i < length parts.now) }
    ensures { result ≡ is text.now (all_kept parts.now) i word.now }
{
    parts::same(token(text, parts, i), word)
}

// Whether it is a name.
fn is_name(text: &[u8], parts: &[Part], i: usize) -> bool
    requires { TokensKept text.now parts.now × (i < length parts.now) }
    ensures { result ≡ is_name text.now (all_kept parts.now) i }
{
    let part = parts[i];
    tokens::is_name_byte(text[part.at]) && part.size <= 32
}

// Whether the tokens are the word and a name in parentheses.
fn is_call(text: &[u8], parts: &[Part], word: &[u8]) -> bool
    requires { TokensKept text.now parts.now }
    ensures { result ≡ is_call text.now (all_kept parts.now) word.now }
{
    parts.len() == 4
        && is(text, parts, 0, word)
        && is(text, parts, 1, b"(")
        && is_name(text, parts, 2)
        && is(text, parts, 3, b")")
}

// The kind of the gate or flip-flop that the word is the keyword of, if it is one.
#[tactic(auto, unfolding(bench_text::specs::Sentence::kind_of, bench_text::specs::Sentence::kind_from))]
fn kind_of(word: &[u8]) -> Option<u8>
    ensures { MatchOption result (kind_of word.now ≡ 0) (λ k. (kind_of word.now ≡ k) × (1 ≤ k) × (k ≤ 9)) }
{
    if parts::same(word, b"DFF") {
        return Some(1);
    }
    if parts::same(word, b"BUFF") {
        return Some(2);
    }
    if parts::same(word, b"NOT") {
        return Some(3);
    }
    if parts::same(word, b"AND") {
        return Some(4);
    }
    if parts::same(word, b"NAND") {
        return Some(5);
    }
    if parts::same(word, b"OR") {
        return Some(6);
    }
    if parts::same(word, b"NOR") {
        return Some(7);
    }
    if parts::same(word, b"XOR") {
        return Some(8);
    }
    if parts::same(word, b"XNOR") {
        return Some(9);
    }
    None
}

// Whether pin i + 1 of so many is a name with a comma behind it, or the closing parenthesis behind the last.
#[tactic(auto, unfolding(bench_text::specs::Sentence::is_pin))]
fn is_pin(text: &[u8], parts: &[Part], pins: usize, i: usize) -> bool
    requires { TokensKept text.now parts.now × (i < pins) × (4 + 2 * pins ≤ length parts.now) × (pins ≡ pin_tokens text.now (all_kept parts.now)) }
    ensures { result ≡ is_pin text.now (all_kept parts.now) i }
{
    let behind = if i + 1 == pins { b")" } else { b"," };
    is_name(text, parts, 4 + 2 * i) && is(text, parts, 5 + 2 * i, behind)
}

// Whether all of them are.
fn are_pins(text: &[u8], parts: &[Part], pins: usize) -> bool
    requires { TokensKept text.now parts.now × (4 + 2 * pins ≤ length parts.now) × (pins ≡ pin_tokens text.now (all_kept parts.now)) }
    ensures { result ≡ not (any_below (λ i. not (is_pin text.now (all_kept parts.now) i)) pins) }
{
    for i in 0..pins {
        if !is_pin(text, parts, pins, i) {
            return false;
        }
    }
    true
}

// Whether the tokens around so many pins are those of a gate or flip-flop of this kind.
fn is_head(text: &[u8], parts: &[Part], pins: usize, kind: u8) -> bool
    requires { TokensKept text.now parts.now × (4 ≤ length parts.now) × (pins ≡ pin_tokens text.now (all_kept parts.now)) × (line_kind text.now (all_kept parts.now) ≡ kind) × (1 ≤ kind) }
    ensures { result ≡ is_head text.now (all_kept parts.now) }
{
    parts.len() == 4 + 2 * pins
        && is_name(text, parts, 0)
        && is(text, parts, 1, b"=")
        && is(text, parts, 3, b"(")
        && rules::pins_fit(kind, pins)
}

// The kind of the gate or flip-flop that the tokens define, if they define one.
fn kind_in(text: &[u8], parts: &[Part], pins: usize) -> Option<u8>
    requires { TokensKept text.now parts.now × (4 ≤ length parts.now) × (pins ≡ pin_tokens text.now (all_kept parts.now)) }
    ensures { MatchOption result (is_line text.now (all_kept parts.now) ≡ false)
        (λ k. (is_line text.now (all_kept parts.now) ≡ true) × (line_kind text.now (all_kept parts.now) ≡ k) × (k ≤ 9)) }
{
    let kind = kind_of(token(text, parts, 2))?;
    if is_head(text, parts, pins, kind) && are_pins(text, parts, pins) {
        Some(kind)
    } else {
        None
    }
}

// A text line of this sort, with no name and no pins.
fn without(sort: Sort, next: usize) -> Line
    ensures { result ≡ record { sort = sort; name = NO_PART; first = 0; pins = 0; next = next } }
{
    Line {
        sort,
        name: NO_PART,
        first: 0,
        pins: 0,
        next,
    }
}

// What tokens say that are of one of the last two forms, or of none.
fn gate_told(text: &[u8], parts: &[Part], next: usize) -> Line
    requires { TokensKept text.now parts.now }
    ensures next { result.next ≡ next }
    ensures tells { Tells parts.now (gate_sentence text.now (all_kept parts.now)) result }
    ensures kept { result.first + 2 * result.pins ≤ length parts.now + 1 }
{
    let count = parts.len();
    if count < 4 {
        return without(Sort::Malformed, next);
    }
    let pins = (count - 4) / 2;
    match kind_in(text, parts, pins) {
        Some(kind) => Line {
            sort: Sort::Defines(kind),
            name: parts[0],
            first: 4,
            pins,
            next,
        },
        None => without(Sort::Malformed, next),
    }
}

// What the tokens of a text line say, with where the next one begins.
fn told(text: &[u8], parts: &[Part], next: usize) -> Line
    requires { TokensKept text.now parts.now }
    ensures next { result.next ≡ next }
    ensures tells { Tells parts.now (sentence text.now (all_kept parts.now)) result }
    ensures kept { result.first + 2 * result.pins ≤ length parts.now + 1 }
{
    if parts.is_empty() {
        return without(Sort::Nothing, next);
    }
    if is_call(text, parts, b"INPUT") {
        return Line {
            sort: Sort::Defines(0),
            name: parts[2],
            first: 0,
            pins: 0,
            next,
        };
    }
    if is_call(text, parts, b"OUTPUT") {
        return Line {
            sort: Sort::Output,
            name: NO_PART,
            first: 2,
            pins: 1,
            next,
        };
    }
    gate_told(text, parts, next)
}

// The first place of this byte from `at` on and before `end`; `end` where there is none.
fn find(text: &[u8], at: usize, end: usize, byte: u8) -> usize
    requires { (at ≤ end) × (end ≤ length text.now) }
    ensures { result ≡ at + length (up_to byte (take (end - at) (drop at text.now))) }
{
    for i in at..end {
        if text[i] == byte {
            return i;
        }
    }
    end
}

// What the text line that begins here says; its tokens are put into `parts`.
pub fn read_line(text: &[u8], at: usize, parts: &mut [Part]) -> Line
    requires { (at ≤ length text.now) × (length parts.old ≡ 16) }
    ensures room { length parts.new ≡ 16 }
    ensures next { result.next ≡ next_line text.now at }
    ensures tells { Tells parts.new (sentence_from text.now at) result }
{
    let end = find(text, at, text.len(), b'\n');
    let to = find(text, at, end, b'#');
    let count = tokens::scan(text, at, to, parts);
    if 12 < count {
        return without(Sort::Malformed, end + 1);
    }
    told(text, &parts[..count], end + 1)
}
