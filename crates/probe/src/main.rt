// Makes one call, for tests: call.dat tells which, with which k and with areas of which lengths; circuit.dat, test.dat, faults.dat, plan.dat
// and verdicts.dat are lent, a missing file as an empty one. Prints what the call answered, the whole result area in hexadecimal, and whether
// the work area is as it was.
#![tactic(auto)]

ghost use Rattle.std.specs.Prelude.{◌≤◌, IfSome};
ghost use Rattle.printing.specs.Prefix.{IsPrefixLen};

use calls::{Kind, Lent};
use printing::{BLANK, Input};

// How long an area may be.
const AREA: usize = 196608;

// What call.dat tells.
#[derive(Clone, Copy)]
struct Told {
    kind: Kind,
    k: usize,
    room: usize,
    size: usize,
}

// Byte 0 the number of the call, byte 1 zero, then k in two bytes, and in four each the lengths of the work area and the result area.
fn told_by(bytes: &[u8; 13]) -> Option<Told> {
    let kind = Kind::try_from(bytes[0]).ok()?;
    (bytes[1] == 0).then_some(Told {
        kind,
        k: basics::word_at(bytes, 2),
        room: printing::long_at(bytes, 4),
        size: printing::long_at(bytes, 8),
    })
}

// A file's bytes, at the start of the area; how many. A file that is longer than the area has a line of its own.
fn read(rt: &HostRuntime, name: &[u8], area: &mut [u8]) -> usize
    ensures { IsPrefixLen result area.new }
{
    let (size, more) = match printing::read_file(rt, name, area) {
        Input::Missing => (0, false),
        Input::Whole(size) => (size, false),
        Input::Longer(size) => (size, true),
        Input::Broken { size, more } => (size, more),
    };
    if more {
        printing::text(rt, b"too long ");
        printing::text(rt, name);
        printing::text(rt, b"\n");
    }
    size
}

// The result area of this length, 32 bytes a line.
fn print_result(rt: &impl Print, res: &[u8; AREA], size: usize)
    requires { size ≤ 196608 }
{
    printing::hex(rt, &res[..size], 32);
    if 0 < size {
        printing::text(rt, b"\n");
    }
}

fn print_work(rt: &impl Print, work: &[u8; AREA]) {
    if printing::kept(work, BLANK) {
        printing::text(rt, b"work kept\n");
    } else {
        printing::text(rt, b"work used\n");
    }
}

fn run(rt: &impl Print, told: Told, lent: Lent)
    requires { (told.room ≤ 196608) × (told.size ≤ 196608) }
{
    let mut work = [BLANK; AREA];
    let mut result = [BLANK; AREA];
    let room = told.room;
    let size = told.size;
    let outcome = calls::make(told.kind, lent, &mut work[..room], &mut result[..size]);
    printing::outcome(rt, outcome);
    printing::text(rt, b"\n");
    print_result(rt, &result, size);
    print_work(rt, &work);
}

// The call with the files lent.
fn run_on_files(rt: &HostRuntime, told: Told)
    requires { (told.room ≤ 196608) × (told.size ≤ 196608) }
{
    let mut circuit: [u8; 65552] = printing::zeros();
    let mut test: [u8; 65552] = printing::zeros();
    let mut faults: [u8; 131088] = printing::zeros();
    let mut plan: [u8; 65552] = printing::zeros();
    let mut verdicts: [u8; 524320] = printing::zeros();
    let lines = read(rt, b"circuit.dat", &mut circuit);
    let units = read(rt, b"test.dat", &mut test);
    let list = read(rt, b"faults.dat", &mut faults);
    let pairs = read(rt, b"plan.dat", &mut plan);
    let records = read(rt, b"verdicts.dat", &mut verdicts);
    let lent = Lent {
        circuit: &circuit[..lines],
        test: &test[..units],
        faults: &faults[..list],
        plan: &plan[..pairs],
        verdicts: &verdicts[..records],
        k: told.k,
    };
    run(rt, told, lent);
}

// What call.dat tells, where it has its twelve bytes and they tell of a call with areas that are not too long.
fn read_call(rt: &HostRuntime) -> Option<Told>
    ensures { IfSome result (λ told. (told.room ≤ 196608) × (told.size ≤ 196608)) }
{
    let mut bytes = [0u8; 13];
    match printing::read_file(rt, b"call.dat", &mut bytes) {
        Input::Whole(12) | Input::Broken { size: 12, .. } => {}
        _ => return None,
    }
    let told = told_by(&bytes)?;
    (told.room <= AREA && told.size <= AREA).then_some(told)
}

fn main(rt: HostRuntime) {
    match read_call(&rt) {
        Some(told) => run_on_files(&rt, told),
        None => printing::text(&rt, b"bad call\n"),
    }
}
