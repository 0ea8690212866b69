// The names of a text's circuit lines in two tables that the caller lends, zero at first, so that a name is found without a walk over the text.
// Lines whose names have one hash are chained, from the highest down: `heads` tells the first line of each chain, and a row of `names` tells
// where a line's name begins, its size and the next line of its chain. A line stands there as one more than its number, and 0 is no line: the
// tables are words, and not rows of a type, since callers lend them as zeros (README.md, Calls).
#![tactic(auto)]

ghost use Rattle.std.specs.Prelude.{◌≡◌, ◌+◌, ◌≤◌, ◌<◌, length, MatchOption};
ghost use Rattle.std.proofs.Math.Option.{none, some};
ghost use Rattle.lists.specs.Scan.{first};
ghost use Rattle.bench_text.specs.Text.{bytes_of};
ghost use Rattle.bench_text.specs.Bench.{name_at, named};
ghost use Rattle.parts.specs.Place.{text_part};
ghost use Rattle.lookup.specs.Lookup.{row_part, RowWithin, Held};

use parts::Part;

// How many lines the tables have room for.
pub const HELD: usize = 4096;

// Words of `names`, three a line.
pub const NAMES: usize = 12288;

// Words of `heads`, one a hash.
pub const HEADS: usize = 4096;

// Holds line n, whose name is this part of the text.
pub fn hold(text: &[u8], names: &mut [usize], heads: &mut [usize], n: usize, part: Part)
    requires { (Held text.now names.old heads.old n) × (n < 4096)
        × (text_part part ≡ name_at text.now n) × (part.at + part.size ≤ length text.now) }
    ensures { Held text.now names.new heads.new (n + 1) }
{
    let hash = parts::hash(part.bytes(text));
    names[3 * n] = part.at;
    names[3 * n + 1] = part.size;
    names[3 * n + 2] = heads[hash];
    heads[hash] = n + 1;
}

// The part of the text that is line n's name.
pub fn name<'a>(text: &'a [u8], names: &[usize], n: usize) -> &'a [u8]
    requires { RowWithin text.now names.now n }
    ensures bytes { result.now ≡ bytes_of text.now (row_part names.now n) }
    ensures place { (result.ref_ptr.0 ≡ text.entry.ref_ptr.0) × (result.ref_ptr.1 ≡ (row_part names.now n).at + text.entry.ref_ptr.1) }
{
    let part = Part {
        at: names[3 * n],
        size: names[3 * n + 1],
    };
    part.bytes(text)
}

// The lowest of the lines held that has this name, if one has it.
pub fn find(
    text: &[u8],
    names: &[usize],
    heads: &[usize],
    count: usize,
    wanted: &[u8],
) -> Option<usize>
    requires { Held text.now names.now heads.now count }
    ensures { MatchOption result (first (λ n. named text.now wanted.now n) count ≡ none) (λ n. first (λ n. named text.now wanted.now n) count ≡ some n) }
{
    let mut found = None;
    let mut at = heads[parts::hash(wanted)];
    // A chain is no range: each row tells where it goes on.
    while 0 < at {
        let n = at - 1;
        if parts::same(name(text, names, n), wanted) {
            found = Some(n);
        }
        at = names[3 * n + 2];
    }
    found
}
