// Rows of values as bytes, one a flip-flop: 0, 1, or 2 for X. An extra is such a row, X where it says nothing; the state list has one a unit.
#![tactic(auto)]

ghost use Rattle.std.specs.Prelude.{false, cond, List, ◌≡◌, ℕ, ◌<◌, ◌≤◌, eqb, length, take, set, replicate};
ghost use Rattle.lists.specs.Field.{overwritten};
ghost use Rattle.model.specs.Accepted.{ThreeValued};
ghost use Rattle.model.specs.Values.{X, opposes, some_oppose, give_row};
ghost use Rattle.model.specs.Implication.{where_x};
ghost use Rattle.model.specs.Sequences.{overlaps};
ghost use Rattle.model.specs.Choose.{size};
ghost use Rattle.lanes.specs.Lane.{Lane, Room};

// The first so many bytes of an area, at the beginning of another: a row, or a whole table of them.
pub fn copy_row(from: &[u8], count: usize, to: &mut [u8])
    requires { (count ≤ length from.now) × (count ≤ length to.old) }
    ensures { to.new ≡ overwritten (take count from.now) to.old }
{
    to[..count].copy_from_slice(&from[..count]);
}

// The second where the first is X, else the third.
fn if_x(a: u8, b: u8, other: u8) -> u8
    ensures { result ≡ cond (eqb a X) b other }
{
    if a == 2 { b } else { other }
}

// Of the state in a lane, the places that are X in the plain row; X elsewhere.
pub fn extra_row(plain: &[u8], state: &[u64], count: usize, lane: usize, row: &mut [u8])
    requires { (count ≤ length plain.now) × (Room count state.now) × (lane < 64) × (count ≤ length row.old) }
    ensures { (st : List ℕ) → Lane lane state.now st → length st ≡ count → ThreeValued st
        → row.new ≡ overwritten (where_x (take count plain.now) st) row.old }
{
    for s in 0..count {
        let value = lanes::read(state, s).lane(lane);
        row[s] = if_x(plain[s], value, 2);
    }
}

// X everywhere but at place i.
pub fn one_bit(count: usize, i: usize, value: u8, row: &mut [u8])
    requires { (i < count) × (count ≤ length row.old) }
    ensures { row.new ≡ overwritten (set (replicate count X) i value) row.old }
{
    row[..count].fill(2);
    row[i] = value;
}

// One is 0 and the other 1.
fn opposing(a: u8, b: u8) -> bool
    ensures { result ≡ opposes a b }
{
    match a {
        0 => b == 1,
        1 => b == 0,
        _ => false,
    }
}

// The row is given the extra. True where they oppose at some place, and then what the row holds is of no use.
pub fn give_row(extra: &[u8], count: usize, row: &mut [u8]) -> bool
    requires { (count ≤ length extra.now) × (count ≤ length row.old) }
    ensures { (result ≡ some_oppose (take count row.old) (take count extra.now))
        × (result ≡ false → ThreeValued (take count row.old) → ThreeValued (take count extra.now)
        → row.new ≡ overwritten (give_row (take count row.old) (take count extra.now)) row.old) }
{
    let mut found = false;
    for s in 0..count {
        let a = row[s];
        let b = extra[s];
        found |= opposing(a, b);
        row[s] = if_x(a, b, a);
    }
    found
}

// How many places are specified. No turn branches on what the row holds: `filter` and `count` do, and on rows of 0, 1 and X mixed they take some
// six times as long.
pub fn specified(row: &[u8], count: usize) -> usize
    requires { count ≤ length row.now }
    ensures { (result ≡ size (take count row.now)) × (result ≤ count) }
{
    let mut found: usize = 0;
    for s in 0..count {
        found += usize::from(row[s] <= 1);
    }
    found
}

// Some place is specified in both rows. Every place is compared, many at once by the machine: `any`, which ends at the first, compares one at a time,
// and makes Choose and the plan's pairs of Grade several times slower where rows are long (docs/DESIGN-PASS.md, Speed).
pub fn overlap(a: &[u8], b: &[u8], count: usize) -> bool
    requires { (count ≤ length a.now) × (count ≤ length b.now) }
    ensures { result ≡ overlaps (take count a.now) (take count b.now) }
{
    let mut found = false;
    for s in 0..count {
        found |= (a[s] <= 1) & (b[s] <= 1);
    }
    found
}
