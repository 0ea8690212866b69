// Calls Generate on every job of jobs.dat, a line of print for each: what it answered, and then the whole result area, in hexadecimal where
// it has up to 64 bytes and else as a checksum. A job is the seed in 16 bits, the time units and the length of the result area in 32 bits
// each, and in 16 bits the length of the circuit, which follows. The area holds one byte throughout before the call. The last line says of
// three seeds after how many steps the number is back at its seed for the first time.
#![tactic(auto)]

ghost use Rattle.std.specs.Prelude.{◌<◌, ◌≤◌, length, IfSome};
ghost use Rattle.generate_test.specs.Period.{Period};

use printing::BLANK;

// A byte more than the longest test.
const AREA: usize = 262145;

// Takes the array whole, so that nothing is to be shown of its length after a part was lent.
fn print_area(rt: &impl Print, res: &[u8; AREA], size: usize)
    requires { size ≤ 262145 }
{
    if size == 0 {
        return;
    }
    let area = &res[..size];
    printing::text(rt, b" ");
    if size <= 64 {
        printing::hex(rt, area, 64);
    } else {
        printing::number(rt, printing::checksum(area));
    }
}

fn run(rt: &impl Print, circuit: &[u8], seed: u16, units: usize, size: usize) {
    let mut result = [BLANK; AREA];
    if AREA < size {
        printing::text(rt, b"the result area is too long\n");
        return;
    }
    let outcome = generate::generate(circuit, seed, units, &mut result[..size]);
    printing::outcome(rt, outcome);
    print_area(rt, &result, size);
    printing::text(rt, b"\n");
}

// The job that begins here; what is behind it, or none where it is cut off.
fn run_job<'a>(rt: &impl Print, jobs: &'a [u8]) -> Option<&'a [u8]>
    ensures { IfSome result (λ rest. length rest.now < length jobs.now) }
{
    let (head, rest) = jobs.split_at_checked(12)?;
    let (circuit, rest) = rest.split_at_checked(basics::word_at(head, 10))?;
    let seed = u16::from_le_bytes([head[0], head[1]]);
    let units = printing::long_at(head, 2);
    let size = printing::long_at(head, 6);
    run(rt, circuit, seed, units, size);
    Some(rest)
}

// After how many steps the number is back at its seed for the first time; 65,536, which is higher than any, where it is not in so many.
fn period(seed: u16) -> usize
    ensures { Period seed result }
{
    let mut x = generate::step(seed);
    for n in 1..65536 {
        if x == seed {
            return n;
        }
        x = generate::step(x);
    }
    65536
}

fn main(rt: HostRuntime) {
    let mut jobs = [0u8; 65536];
    let size = printing::read(&rt, b"jobs.dat", &mut jobs);
    printing::run_jobs(&rt, &jobs[..size], |jobs| run_job(&rt, jobs));
    printing::text(&rt, b"periods ");
    printing::row(&rt, &[period(1), period(0xace1), period(65535)]);
}
