// Calls `read_bench` and `name_of` on every text of texts.dat, a line of print for each: what was answered; of a text that is read the records, in
// hexadecimal or of more than 16 as a checksum, and the names of its lines, or of so many that of the first and the last; the name of the line
// behind the last, or where the text is refused that of line 0; and whether the bytes that must stay have stayed. `-` is an empty part. A text has its
// length and that of the result area before it, in 32 bits each. The area holds one byte throughout before the call.
#![tactic(auto)]

ghost use Rattle.std.specs.Prelude.{◌<◌, length, IfSome};

use bench_file::LONGEST;
use printing::BLANK;
use rules::Refusal;

// A record more than a circuit can have.
const AREA: usize = 49164;

fn print_name(rt: &impl Print, text: &[u8], line: usize) {
    let name = read_bench::name_of(text, line);
    printing::text(rt, b" ");
    if name.is_empty() {
        printing::text(rt, b"-");
        return;
    }
    printing::text(rt, name);
}

fn print_names(rt: &impl Print, text: &[u8], count: usize) {
    for n in 0..count {
        print_name(rt, text, n);
    }
}

// The records and the names of up to 16 lines.
fn print_few(rt: &impl Print, text: &[u8], records: &[u8], count: usize) {
    printing::text(rt, b" ");
    printing::hex(rt, records, 192);
    print_names(rt, text, count);
}

// A checksum of more records, and two names.
fn print_many(rt: &impl Print, text: &[u8], records: &[u8], last: usize) {
    printing::text(rt, b" checksum ");
    printing::number(rt, printing::checksum(records));
    print_name(rt, text, 0);
    print_name(rt, text, last);
}

fn print_done(rt: &impl Print, text: &[u8], count: usize, res: &[u8; AREA]) {
    printing::done(rt, count);
    if 4096 < count {
        printing::text(rt, b" TOO MANY\n");
        return;
    }
    let (records, rest) = res.split_at(12 * count);
    if count <= 16 {
        print_few(rt, text, records, count);
    } else {
        print_many(rt, text, records, count - 1);
    }
    print_name(rt, text, count);
    printing::kept_or_changed(rt, printing::kept(rest, BLANK));
}

fn print_refused(rt: &impl Print, text: &[u8], refusal: Refusal, res: &[u8; AREA]) {
    printing::refused(rt, refusal.rule.number(), refusal.at);
    print_name(rt, text, 0);
    printing::kept_or_changed(rt, printing::kept(res, BLANK));
}

fn run(rt: &impl Print, text: &[u8], size: usize) {
    let mut result = [BLANK; AREA];
    if AREA < size {
        printing::text(rt, b"the result area is too long\n");
        return;
    }
    match read_bench::read_bench(text, &mut result[..size]) {
        Ok(count) => print_done(rt, text, count, &result),
        Err(refusal) => print_refused(rt, text, refusal, &result),
    }
}

// The text that begins here, behind its two lengths; what is behind it, or none where it is cut off.
fn run_text<'a>(rt: &impl Print, texts: &'a [u8]) -> Option<&'a [u8]>
    ensures { IfSome result (λ rest. length rest.now < length texts.now) }
{
    let (head, rest) = texts.split_at_checked(8)?;
    let (text, rest) = rest.split_at_checked(printing::long_at(head, 0))?;
    run(rt, text, printing::long_at(head, 4));
    Some(rest)
}

fn main(rt: HostRuntime) {
    let mut texts: [u8; LONGEST] = printing::zeros();
    let size = printing::read(&rt, b"texts.dat", &mut texts);
    printing::run_jobs(&rt, &texts[..size], |texts| run_text(&rt, texts));
}
