// What is appended to a print: a byte, a text, a number in decimal, one with the byte that follows it, and a line of numbers.
#![tactic(auto)]

ghost use Rattle.std.specs.Prelude.{[], ◌∷◌, ◌++◌, ◌+◌, ◌%◌, ◌<◌, ◌≤◌, length};
ghost use Rattle.model.specs.Listing.{decimal, number_line};
ghost use Rattle.decimals.specs.Put.{Put};

// One byte. Each function here answers where the next byte goes.
pub fn put_byte(out: &mut [u8], at: usize, byte: u8) -> usize
    requires { at < length out.old }
    ensures { Put at result (byte ∷ []) out.old out.new }
{
    out[at] = byte;
    at + 1
}

// Bytes as they are.
pub fn put_text(out: &mut [u8], at: usize, text: &[u8]) -> usize
    requires { at + length text.now ≤ length out.old }
    ensures { Put at result text.now out.old out.new }
{
    let end = at + text.len();
    out[at..end].copy_from_slice(text);
    end
}

// The last digit of a number.
fn put_digit(out: &mut [u8], at: usize, n: usize) -> usize
    requires { at < length out.old }
    ensures { Put at result ((48 + n % 10) ∷ []) out.old out.new }
{
    put_byte(out, at, 48 + (n % 10) as u8)
}

// A number: what stands before its last digit, and that digit. Its contract says the bytes, which those of `Display` do not.
pub fn put_number(out: &mut [u8], at: usize, n: usize) -> usize
    requires { at + length (decimal n) ≤ length out.old }
    ensures { Put at result (decimal n) out.old out.new }
{
    if n < 10 {
        return put_digit(out, at, n);
    }
    let last = put_number(out, at, n / 10);
    put_digit(out, last, n)
}

// A number and the byte that follows it.
pub fn put_field(out: &mut [u8], at: usize, n: usize, after: u8) -> usize
    requires { at + length (decimal n) < length out.old }
    ensures { Put at result (decimal n ++ (after ∷ [])) out.old out.new }
{
    let end = put_number(out, at, n);
    put_byte(out, end, after)
}

// Numbers with a space between, and byte 10 at the end.
pub fn put_line(out: &mut [u8], from: usize, fields: &[usize]) -> usize
    requires { (0 < length fields.now) × (from + length (number_line fields.now) ≤ length out.old) }
    ensures { Put from result (number_line fields.now) out.old out.new }
{
    let last = fields.len() - 1;
    let mut at = from;
    for n in &fields[..last] {
        at = put_field(out, at, *n, b' ');
    }
    put_field(out, at, fields[last], b'\n')
}
