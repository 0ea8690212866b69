// The circuit lines that a text defines: how many, and which of them has a name. The first 4,096 are held in tables; a name that none of these
// has is looked for in the text lines behind them.
#![tactic(auto)]

ghost use Rattle.std.specs.Prelude.{false, ◌≡◌, ℕ, ◌+◌, ◌<◌};
ghost use Rattle.bench_text.specs.Text.{same};
ghost use Rattle.bench_text.specs.Bench.{named, line_named};
ghost use Rattle.lookup.specs.Lookup.{Held};
ghost use Rattle.definitions.specs.Reached.{Reached, Collected};
ghost use Rattle.definitions.specs.Tables.{HeldAs};

use lookup::HELD;
use parts::NO_PART;
use sentences::Sort;
use tokens::KEPT;

// How many lines a text defines, how many of them are held, and where the text line behind the last of those begins.
#[derive(Clone, Copy)]
pub struct Known {
    pub lines: usize,
    pub held: usize,
    pub rest: usize,
}

// Holds the lines that the text defines, as many as there is room for.
pub fn collect(text: &[u8], names: &mut [usize], heads: &mut [usize]) -> Known
    requires { Held text.now names.old heads.old 0 }
    ensures { Collected text.now names.new heads.new result }
{
    let mut parts = [NO_PART; KEPT];
    let mut at: usize = 0;
    let mut lines: usize = 0;
    let mut held: usize = 0;
    let mut rest: usize = 0;
    // Each text line tells where the next begins.
    while at < text.len() {
        let line = sentences::read_line(text, at, &mut parts);
        at = line.next;
        let Sort::Defines(_) = line.sort else {
            continue;
        };
        lines += 1;
        if HELD <= held {
            continue;
        }
        lookup::hold(text, names, heads, held, line.name);
        held += 1;
        rest = line.next;
    }
    Known { lines, held, rest }
}

// The lowest line with this name, from line n on, whose text lines begin here; the number of lines where there is none.
fn find_behind(text: &[u8], from: usize, n: usize, name: &[u8]) -> usize
    requires by_index { (m : ℕ) → m < n → named text.now name.now m ≡ false }
    requires by_index_2 { (j : ℕ) × Reached text.now j from n }
    ensures { result ≡ line_named text.now name.now }
{
    let mut parts = [NO_PART; KEPT];
    let mut at = from;
    let mut line = n;
    // Each text line tells where the next begins.
    while at < text.len() {
        let said = sentences::read_line(text, at, &mut parts);
        at = said.next;
        let Sort::Defines(_) = said.sort else {
            continue;
        };
        if parts::same(said.name.bytes(text), name) {
            return line;
        }
        line += 1;
    }
    line
}

// The lines that a text defines, held in tables.
#[derive(Clone, Copy)]
pub struct Definitions<'a> {
    pub text: &'a [u8],
    pub names: &'a [usize],
    pub heads: &'a [usize],
    pub known: Known,
}

impl<'a> Definitions<'a> {
    // The line with this name, the lowest where there are several; the number of lines where there is none, which is how a pin's line is told
    // (`LineChecked` of bench_line, by `line_named`): what is out of reach and what is not there are refused alike.
    pub fn find(self, name: &[u8]) -> usize
        requires { HeldAs self }
        ensures { result ≡ line_named self.entry.text.now name.now }
    {
        match lookup::find(self.text, self.names, self.heads, self.known.held, name) {
            Some(n) => n,
            None => find_behind(self.text, self.known.rest, self.known.held, name),
        }
    }
}
