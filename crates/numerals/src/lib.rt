// A number as an argument of a program gives it.
#![tactic(auto)]

ghost use Rattle.std.specs.Prelude.{◌≡◌, ◌≤◌};
ghost use Rattle.numerals.specs.Numeral.{with_digits, numeral, capped};

// The highest number that is told; it stands for every higher one too.
const HIGHEST: usize = 65536;

// The number that these digits make, or none where one of them is no digit of the base.
fn digits(text: &[u8], base: u32) -> Option<usize>
    requires { (2 ≤ base) × (base ≤ 16) }
    ensures { result ≡ capped (with_digits base 0 text.now) }
{
    let mut v = 0;
    for b in text {
        let d = char::from(*b).to_digit(base)?;
        let n = base as usize * v + d as usize;
        v = n.min(HIGHEST);
    }
    Some(v)
}

// The number of a text, decimal digits or 0x and hexadecimal digits; or none where the text is no number.
pub fn number_in(text: &[u8]) -> Option<usize>
    ensures { result ≡ capped (numeral text.now) }
{
    match text {
        [] => None,
        [b'0', b'x', _, ..] => digits(&text[2..], 16),
        _ => digits(text, 10),
    }
}
