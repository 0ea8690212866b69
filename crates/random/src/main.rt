// The program `random`: a pseudo-random test for the circuit in circuit.dat, on standard output, from the seed and the number of time units
// that its arguments tell. What is wrong is told on standard error.
#![tactic(auto)]

ghost use Rattle.std.specs.Prelude.{◌≤◌};

use printing::{Input, tell};
use rules::{Refusal, Rule};

// As long as the longest test.dat that `grader` reads.
const TEST: usize = 65536;

// What a row of the table of refusals says.
fn words_of(rule: Rule) -> &'static str {
    match rule {
        Rule::CircuitLength => {
            "circuit.dat is empty, not whole records of 12 bytes, or above 49152 bytes"
        }
        Rule::Kind => "a kind above 9",
        Rule::PinCount => "a pin count wrong for its kind",
        Rule::StrayBytes => "byte 2 above 1, or byte 3 or an unused pin not 0",
        Rule::PinNames => "a pin that names a line it must not",
        Rule::CircuitSizes => {
            "no input or no output, or above 256 inputs, flip-flops or outputs in circuit.dat"
        }
        Rule::ResultArea => "the test is longer than the 65536 bytes that grader reads",
        Rule::Seed => "the seed is 0",
        Rule::TimeUnits => "the time units are 0 or above 1024",
        _ => "a rule that this program does not know",
    }
}

// Whether a row speaks of a record of the circuit.
fn is_on_record(rule: Rule) -> bool {
    matches!(
        rule,
        Rule::Kind | Rule::PinCount | Rule::StrayBytes | Rule::PinNames
    )
}

// Number and position, and the rule in words.
fn tell_refused(rt: &HostRuntime, refusal: Refusal) {
    let number = refusal.rule.number();
    let at = refusal.at;
    let words = words_of(refusal.rule);
    tell(rt, b"random: refused ");
    let _ = rt.eprint(number);
    tell(rt, b" ");
    let _ = rt.eprint(at);
    tell(rt, b": ");
    if is_on_record(refusal.rule) {
        tell(rt, b"record ");
        let _ = rt.eprint(at);
        tell(rt, b" of circuit.dat, counted from 0, has ");
    }
    tell(rt, words.as_bytes());
    tell(rt, b"\n");
}

// The test that stands at the beginning of the area.
fn write(rt: &HostRuntime, test: &[u8; TEST], size: usize)
    requires { size ≤ 65536 }
{
    printing::deliver(rt, &test[..size], b"random: cannot write the test\n");
}

// The circuit's test, or why there is none.
fn make(rt: &HostRuntime, circuit: &[u8], seed: u16, units: usize) {
    let mut test = [0u8; TEST];
    match generate::generate(circuit, seed, units, &mut test) {
        Ok(size) => write(rt, &test, size),
        Err(refusal) => tell_refused(rt, refusal),
    }
}

// The same of the circuit in circuit.dat. A file that is longer than the area is refused by rule 1 as the whole of it would be.
fn make_for_file(rt: &HostRuntime, seed: u16, units: usize) {
    let mut circuit = [0u8; 65536];
    match printing::read_file(rt, b"circuit.dat", &mut circuit) {
        Input::Missing => {
            tell(rt, b"random: there is no file circuit.dat in this folder\n");
        }
        Input::Whole(size) | Input::Longer(size) => make(rt, &circuit[..size], seed, units),
        Input::Broken { .. } => {}
    }
}

// The number that an argument gives.
fn argument(rt: &HostRuntime, i: usize) -> Option<usize> {
    let mut text = [0u8; 4096];
    let size = printing::argument(rt, i, &mut text).ok()?;
    numerals::number_in(&text[..size])
}

// An argument that is no number of its range.
fn bad(rt: &HostRuntime, range: &[u8]) {
    tell(rt, b"random: ");
    tell(rt, range);
    tell(rt, b", in decimal or as 0x and hexadecimal digits\n");
}

// The time units, of a seed that is told.
fn with_seed(rt: &HostRuntime, seed: u16) {
    match argument(rt, 2) {
        None => bad(rt, b"the time units are not a number from 1 to 1024"),
        Some(units) => make_for_file(rt, seed, units),
    }
}

fn usage(rt: &HostRuntime) {
    tell(rt, b"usage: random SEED UNITS\n");
    tell(
        rt,
        b"writes a test of UNITS time units, 1 to 1024, for the circuit in circuit.dat to standard output\n",
    );
    tell(
        rt,
        b"SEED is 1 to 65535; each is in decimal or 0x and hexadecimal digits\n",
    );
}

// The test that the two arguments tell.
fn run(rt: &HostRuntime) {
    match argument(rt, 1).and_then(|seed| u16::try_from(seed).ok()) {
        None => bad(rt, b"the seed is not a number from 1 to 65535"),
        Some(seed) => with_seed(rt, seed),
    }
}

fn main(rt: HostRuntime) {
    if !printing::has_argument(&rt, 2) || printing::has_argument(&rt, 3) {
        usage(&rt);
        return;
    }
    run(&rt);
}
