// The best of the pairs that stage 5 would take next. What a pair's two extras weigh is read from a table; with the merit of its unit it gives one
// number, its score, whose digits are the criteria, so that one comparison decides. The pairs are seen by time unit and then by flip-flop, and
// only a larger score replaces the best so far: of pairs that are the same the first stays.
#![tactic(auto)]

ghost use Rattle.std.specs.Prelude.{◌≡◌, ◌+◌, ◌*◌, ◌<◌, ◌≤◌, length};
ghost use Rattle.lists.specs.Field.{word16};
ghost use Rattle.model.specs.Expansion.{count_x};
ghost use Rattle.best.specs.Best.{AtMost, most_nout, most_merit, MeritsSet, Compared, Scanned, BestPicked};

// The best pair so far: 1 more than its score; its unit and flip-flop.
#[derive(Clone, Copy)]
pub struct Best {
    pub score: usize,
    pub unit: usize,
    pub bit: usize,
}

// The places that are X.
fn count_x(row: &[u8]) -> usize
    ensures { (result ≡ count_x row.now) × (result ≤ length row.now) }
{
    row.iter().filter(|v| **v == 2).count()
}

// The merits of the first so many units, from the table of plain states, a row a unit, and Nout of every unit.
pub fn set_merits(units: usize, size: usize, states: &[u8], nout: &[usize], merits: &mut [usize])
    requires { (units ≤ 1024) × (size ≤ 256) × (units * size ≤ length states.now) × (units ≤ length nout.now) × (units ≤ length merits.old) × (AtMost most_nout units nout.now) }
    ensures { MeritsSet units size states.now nout.now merits.new }
{
    for u in 0..units {
        let at = size * u;
        let to = at + size;
        let unknown = count_x(&states[at..to]);
        merits[u] = nout[u] * 512 + (256 - unknown);
    }
}

// The better of the best so far and (u, i), whose entry stands at a place of the table.
fn compare(
    best: Option<Best>,
    merit: usize,
    u: usize,
    i: usize,
    table: &[u8],
    at: usize,
) -> Option<Best>
    requires { (merit ≤ most_merit) × (at + 4 ≤ length table.now) }
    ensures { Compared best merit u i (word16 table.now at) (word16 table.now (at + 2)) result }
{
    let first = basics::word_at(table, at);
    if first == 0 {
        return best;
    }
    let second = basics::word_at(table, at + 2);
    let score = (merit * 512 + (first - 1)) * 512 + second + 1;
    match best {
        Some(old) if score <= old.score => best,
        _ => Some(Best {
            score,
            unit: u,
            bit: i,
        }),
    }
}

// The best so far with the flip-flops of unit u.
fn best_at(u: usize, size: usize, merit: usize, table: &[u8], best: Option<Best>) -> Option<Best>
    requires { (u < 1024) × (size ≤ 256) × (merit ≤ most_merit) × (4 * (size * u + size) ≤ length table.now) }
    ensures { Scanned u size merit table.now best result }
{
    let from = size * u;
    let mut found = best;
    for i in 0..size {
        found = compare(found, merit, u, i, table, 4 * (from + i));
    }
    found
}

// The best of the pairs at the units below `units`, by the table, 4 bytes a pair, or None where the table has no pair.
pub fn best_pair(units: usize, size: usize, merits: &[usize], table: &[u8]) -> Option<Best>
    requires { (units ≤ 1024) × (size ≤ 256) × (units ≤ length merits.now) × (4 * (size * units) ≤ length table.now) × (AtMost most_merit units merits.now) }
    ensures { BestPicked units size merits.now table.now result }
{
    let mut found = None;
    for u in 0..units {
        found = best_at(u, size, merits[u], table, found);
    }
    found
}
