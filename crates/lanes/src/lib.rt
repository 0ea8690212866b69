// 64 values at once, one in each lane: two 64-bit words, known 0 and known 1. X is neither, a conflict is both. Giving a value is an OR, AND is
// an AND of the ones and an OR of the zeros, inverting swaps the words. A gate's kind and the value of one lane are the bytes that records and
// rows have for them.
#![tactic(auto)]

ghost use Rattle.std.specs.Prelude.{Bool, true, false, cond, ◌&&◌, List, ◌∷◌, ◌≡◌, ℕ, ◌+◌, ◌*◌, ◌<◌, ◌≤◌, ◌/◌, ◌%◌, eqb};
ghost use Rattle.model.specs.Values.{X, is_specified, invert, and_pair, xor_pair, or_of, even_gate, invert_if, inverts, opposes};
ghost use Rattle.lanes.specs.Lane.{bit, Holds, Conflict, lanes_at, stored, Room, turned_if, Given};

#[derive(Clone, Copy)]
pub struct Lanes {
    pub zeros: u64,
    pub ones: u64,
}

impl Lanes {
    pub const X: Lanes = Lanes { zeros: 0, ones: 0 };

    pub const ZERO: Lanes = Lanes {
        zeros: u64::MAX,
        ones: 0,
    };

    pub const ONE: Lanes = Lanes {
        zeros: 0,
        ones: u64::MAX,
    };

    // The same value in all lanes.
    pub fn all(value: u8) -> Lanes
        ensures { (t : ℕ) → t < 64 → Holds t result value }
    {
        match value {
            0 => Lanes::ZERO,
            1 => Lanes::ONE,
            _ => Lanes::X,
        }
    }

    pub fn invert(self) -> Lanes
        ensures { (t v : ℕ) → Holds t self v → Holds t result (invert v) }
    {
        Lanes {
            zeros: self.ones,
            ones: self.zeros,
        }
    }

    pub fn and(self, y: Lanes) -> Lanes
        ensures { (t v w : ℕ) → Holds t self v → Holds t y w → Holds t result (and_pair v w) }
    {
        Lanes {
            zeros: self.zeros | y.zeros,
            ones: self.ones & y.ones,
        }
    }

    pub fn or(self, y: Lanes) -> Lanes
        ensures { (t v : ℕ) (ws : List ℕ) → Holds t self v → Holds t y (or_of ws) → Holds t result (or_of (v ∷ ws)) }
    {
        Lanes {
            zeros: self.zeros & y.zeros,
            ones: self.ones | y.ones,
        }
    }

    pub fn xor(self, y: Lanes) -> Lanes
        ensures { (t v w : ℕ) → Holds t self v → Holds t y w → Holds t result (xor_pair v w) }
    {
        Lanes {
            zeros: (self.zeros & y.zeros) | (self.ones & y.ones),
            ones: (self.zeros & y.ones) | (self.ones & y.zeros),
        }
    }

    // By the gate's kind, before it inverts: one pin more in front of the others. A kind is the number in its record, here and in the crates
    // above: `finish`, and `pins_fit` of rules, are asked of any number, and document 01 has kinds matched as numbers, with ranges.
    pub fn combine(self, kind: u8, rest: Lanes) -> Lanes
        requires { (2 ≤ kind) × (kind ≤ 9) }
        ensures { (t v : ℕ) (ws : List ℕ) → Holds t self v → Holds t rest (even_gate (kind / 2) ws) → Holds t result (even_gate (kind / 2) (v ∷ ws)) }
    {
        match kind {
            0..=3 => self,
            4..=5 => self.and(rest),
            6..=7 => self.or(rest),
            _ => self.xor(rest),
        }
    }

    // NOT, NAND, NOR and XNOR invert.
    pub fn finish(self, kind: u8) -> Lanes
        ensures { (t v : ℕ) → Holds t self v → Holds t result (invert_if (inverts kind) v) }
    {
        if kind % 2 == 1 { self.invert() } else { self }
    }

    // Stuck where `at` is known, at its value.
    pub fn stuck(self, at: Lanes) -> Lanes
        ensures { (t v : ℕ) (hit : Bool) (s : ℕ) → s < 2 → Holds t at (cond hit s X) → Holds t self v → Holds t result (cond hit s v) }
    {
        Lanes {
            zeros: (self.zeros & !at.ones) | at.zeros,
            ones: (self.ones & !at.zeros) | at.ones,
        }
    }

    // X where `at` is known.
    pub fn unless(self, at: Lanes) -> Lanes
        ensures { (t v a : ℕ) → Holds t self v → Holds t at a → Holds t result (cond (is_specified a) X v) }
    {
        let known = at.zeros | at.ones;
        Lanes {
            zeros: self.zeros & !known,
            ones: self.ones & !known,
        }
    }

    // y in the lanes wanted, this in all others.
    pub fn merge(self, wanted: u64, y: Lanes) -> Lanes
        ensures { (t v : ℕ) → (bit t wanted ≡ false → Holds t self v) → (bit t wanted ≡ true → Holds t y v) → Holds t result v }
    {
        Lanes {
            zeros: (self.zeros & !wanted) | (y.zeros & wanted),
            ones: (self.ones & !wanted) | (y.ones & wanted),
        }
    }

    // With lane t, which was X, at v.
    pub fn with(self, t: usize, v: u8) -> Lanes
        requires { (t < 64) × (v < 2) }
        ensures { (s w : ℕ) → s < 64 → Holds s self w → (s ≡ t → w ≡ X) → Holds s result (cond (eqb s t) v w) }
    {
        let one: u64 = 1 << t;
        if v == 0 {
            Lanes {
                zeros: self.zeros | one,
                ..self
            }
        } else {
            Lanes {
                ones: self.ones | one,
                ..self
            }
        }
    }

    // With what `more` knows added. A conflict stays.
    pub fn give(self, more: Lanes) -> Lanes
        ensures { ((t v w : ℕ) → v < 3 → w < 3 → Holds t self v → Holds t more w → Given t result v w) × ((t : ℕ) → Conflict t self → Conflict t result) }
    {
        Lanes {
            zeros: self.zeros | more.zeros,
            ones: self.ones | more.ones,
        }
    }

    // The lanes that hold a conflict.
    pub fn conflicts(self) -> u64
        ensures { (t : ℕ) → bit t result ≡ bit t self.zeros && bit t self.ones }
    {
        self.zeros & self.ones
    }

    // The lanes in which this is opposite to a value.
    pub fn opposing(self, value: u8) -> u64
        ensures { (t v : ℕ) → Holds t self v → bit t result ≡ opposes value v }
    {
        match value {
            0 => self.ones,
            1 => self.zeros,
            _ => 0,
        }
    }

    // The lanes in which this is X where the value is specified.
    pub fn unknown(self, value: u8) -> u64
        ensures { (t v : ℕ) → t < 64 → v < 3 → Holds t self v → bit t result ≡ (is_specified value && eqb v X) }
    {
        if 1 < value {
            return 0;
        }
        !(self.zeros | self.ones)
    }

    // The value in lane t.
    pub fn lane(self, t: usize) -> u8
        requires { t < 64 }
        ensures { (v : ℕ) → v < 3 → Holds t self v → result ≡ v }
    {
        if (self.zeros >> t) % 2 == 1 {
            return 0;
        }
        if (self.ones >> t) % 2 == 1 {
            return 1;
        }
        2
    }
}

// The lanes at place m of a list.
pub fn read(words: &[u64], m: usize) -> Lanes
    requires { Room (m + 1) words.now }
    ensures { result ≡ lanes_at words.now m }
{
    let zeros = words[2 * m];
    let ones = words[2 * m + 1];
    Lanes { zeros, ones }
}

pub fn store(words: &mut [u64], m: usize, x: Lanes)
    requires { Room (m + 1) words.old }
    ensures { words.new ≡ stored words.old m x }
{
    words[2 * m] = x.zeros;
    words[2 * m + 1] = x.ones;
}

// The lanes at place m for the number 2 m, their inverse for 2 m + 1.
pub fn read_turned(words: &[u64], number: usize) -> Lanes
    requires { Room (number / 2 + 1) words.now }
    ensures { (m : ℕ) (turned : Bool) → number ≡ 2 * m + cond turned 1 0 → result ≡ turned_if turned (lanes_at words.now m) }
{
    let other = number ^ 1;
    Lanes {
        zeros: words[number],
        ones: words[other],
    }
}
