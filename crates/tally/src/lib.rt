// Lanes that stand for consecutive numbers, and words of lanes, counted and searched. Lane t of a block stands for the number base + t, base a
// multiple of 64: of a number's bits the lowest six are then the lane's own, and all others those of base.
#![tactic(auto)]

ghost use Rattle.std.specs.Prelude.{not, ◌&&◌, ◌≡◌, ℕ, ◌+◌, ◌<◌, ◌≤◌, ◌/◌, ◌%◌, ◌^◌, eqb, ltb, MatchOption};
ghost use Rattle.std.proofs.Math.Option.{none, some};
ghost use Rattle.lists.specs.Scan.{count_below, first};
ghost use Rattle.lanes.specs.Lane.{bit, Holds};

use lanes::Lanes;

// The lanes whose number has bit i, one of the lowest six.
fn with_bit(i: usize) -> u64
    requires { i < 6 }
    ensures { (t : ℕ) → t < 64 → bit t result ≡ eqb (t / 2 ^ i % 2) 1 }
{
    match i {
        0 => 0xaaaa_aaaa_aaaa_aaaa,
        1 => 0xcccc_cccc_cccc_cccc,
        2 => 0xf0f0_f0f0_f0f0_f0f0,
        3 => 0xff00_ff00_ff00_ff00,
        4 => 0xffff_0000_ffff_0000,
        _ => 0xffff_ffff_0000_0000,
    }
}

// Bit i of the number that a lane stands for.
pub fn numbered(base: usize, i: usize) -> Lanes
    requires { (base % 64 ≡ 0) × (i < 64) }
    ensures { (t : ℕ) → t < 64 → Holds t result ((base + t) / 2 ^ i % 2) }
{
    if i >= 6 {
        return Lanes::all(((base >> i) % 2) as u8);
    }
    let ones = with_bit(i);
    Lanes { zeros: !ones, ones }
}

// How many of those left the next 64 lanes take.
pub fn block(left: usize) -> usize
    ensures { (result ≤ 64) × (result ≤ left) × (result < 64 → result ≡ left) }
{
    left.min(64)
}

// The lanes below count.
pub fn first_lanes(count: usize) -> u64
    ensures { (t : ℕ) → t < 64 → bit t result ≡ ltb t count }
{
    if count >= 64 {
        return u64::MAX;
    }
    (1 << count) - 1
}

// Whether a lane is in the word.
pub fn has_lane(word: u64, lane: usize) -> bool
    requires { lane < 64 }
    ensures { result ≡ bit lane word }
{
    (word >> lane) % 2 == 1
}

// How many lanes are in the word.
pub fn count(word: u64) -> usize
    ensures { result ≡ count_below (λ t. bit t word) 64 }
{
    word.count_ones() as usize
}

// The lowest lane in the word.
pub fn lowest(word: u64) -> Option<usize>
    ensures { MatchOption result (first (λ t. bit t word) 64 ≡ none) (λ lane. (first (λ t. bit t word) 64 ≡ some lane) × (lane < 64)) }
{
    if word == 0 {
        return None;
    }
    Some(word.trailing_zeros() as usize)
}

// The lanes in the word and not in the other.
pub fn take_out(word: u64, other: u64) -> u64
    ensures { (t : ℕ) → bit t result ≡ (bit t word && not (bit t other)) }
{
    word & !other
}
