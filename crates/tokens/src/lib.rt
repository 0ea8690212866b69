// The tokens of a text line: each longest run of letters, digits and underscores, and each other byte that is no space.
#![tactic(auto)]

ghost use Rattle.std.specs.Prelude.{◌++◌, ◌≡◌, ◌+◌, ◌-◌, ◌<◌, ◌≤◌, length, take, drop};
ghost use Rattle.bench_text.specs.Text.{is_name_byte, tokens};
ghost use Rattle.tokens.specs.Kept.{kept, part_if, Scanned};

use parts::Part;

// Room for so many tokens: no form has more than 12, and up to three more are kept before a scan stops.
pub const KEPT: usize = 16;

// Whether the byte is a letter, a digit or an underscore.
pub fn is_name_byte(b: u8) -> bool
    ensures { result ≡ is_name_byte b }
{
    b.is_ascii_alphanumeric() || b == b'_'
}

// Keeps one token more, unless it is empty; how many there are then.
fn put(parts: &mut [Part], count: usize, at: usize, size: usize) -> usize
    requires { (length parts.old ≡ 16) × (count < 16) }
    ensures longer { result ≤ count + 1 }
    ensures room { length parts.new ≡ 16 }
    ensures keeps { kept parts.new result ≡ kept parts.old count ++ part_if at size }
{
    if size == 0 {
        return count;
    }
    parts[count] = Part { at, size };
    count + 1
}

// The tokens of the bytes from one place up to another; how many there are, and not the slice of them: of an area that a result borrows from,
// no clause says what it holds afterwards.
pub fn scan(text: &[u8], from: usize, to: usize, parts: &mut [Part]) -> usize
    requires { (from ≤ to) × (to ≤ length text.now) × (length parts.old ≡ 16) }
    ensures room { length parts.new ≡ 16 }
    ensures scans { Scanned (tokens from 0 (take (to - from) (drop from text.now))) parts.new result }
{
    let mut count: usize = 0;
    let mut run: usize = 0;
    for i in from..to {
        let b = text[i];
        if is_name_byte(b) {
            run += 1;
            continue;
        }
        if 12 < count {
            return count;
        }
        count = put(parts, count, i - run, run);
        count = put(parts, count, i, usize::from(b != b' '));
        run = 0;
    }
    put(parts, count, to - run, run)
}
