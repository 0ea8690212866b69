// Calls `listing` on files that are made here and prints under a title how many bytes it made, and these; of a long print its first two lines,
// its last, and a checksum of all. tests/listing_jobs.py writes what is to be printed.
#![tactic(auto)]

ghost use Rattle.std.specs.Prelude.{◌<◌, ◌≤◌, length};

use listing::{Area, Longer};

// The records of at most six lines.
type Circuit = [u8; 72];

// The test of specimen A of document 01, and the four faults of its print.
const TEST: [u8; 3] = [0, 0, 0];

const FAULTS: [u8; 16] = [0, 0, 0, 1, 0, 0, 0, 0, 3, 0, 0, 1, 3, 0, 1, 1];

fn is_end(byte: &u8) -> bool {
    *byte == b'\n'
}

// A long print.
fn print_ends(rt: &impl Print, bytes: &[u8]) {
    for line in bytes.split_inclusive(is_end).take(2) {
        printing::text(rt, line);
    }
    if let Some(line) = bytes.split_inclusive(is_end).last() {
        printing::text(rt, line);
    }
    let checksum = printing::checksum(bytes);
    let _ = println!(rt; "checksum {checksum}");
}

fn print_bytes(rt: &impl Print, bytes: &[u8]) {
    if bytes.len() <= 1000 {
        printing::text(rt, bytes);
    } else {
        print_ends(rt, bytes);
    }
}

// The print of this size, under its title.
fn print_titled(rt: &impl Print, title: &str, out: &[u8], size: usize)
    requires { size ≤ length out.now }
{
    let _ = println!(rt; "{title}: {size} bytes");
    print_bytes(rt, &out[..size]);
}

// What is made of four files.
fn list(
    rt: &impl Print,
    title: &str,
    circuit: &[u8],
    test: &[u8],
    faults: &[u8],
    plan: &[u8],
    longer: Longer,
) {
    let mut work = [0u8; 65536];
    let mut result = [0u8; 65536];
    let mut groups = [0u8; 65536];
    let mut out = [0u8; 294960];
    let size = listing::listing(
        circuit,
        test,
        faults,
        plan,
        longer,
        &mut work,
        &mut result,
        &mut groups,
        &mut out,
    );
    print_titled(rt, title, &out, size);
}

// The same, where each file ends with the bytes that were read.
fn list_whole(
    rt: &impl Print,
    title: &str,
    circuit: &[u8],
    test: &[u8],
    faults: &[u8],
    plan: &[u8],
) {
    let longer = Longer {
        circuit: false,
        test: false,
        faults: false,
        plan: false,
    };
    list(rt, title, circuit, test, faults, plan, longer);
}

// The same, of a circuit of so many lines. Takes the array whole, so that nothing is to be shown of its length after it was written.
fn list_lines(
    rt: &impl Print,
    title: &str,
    circuit: &Circuit,
    lines: usize,
    test: &[u8],
    faults: &[u8],
    plan: &[u8],
)
    requires { lines ≤ 6 }
{
    list_whole(rt, title, &circuit[..12 * lines], test, faults, plan);
}

// The record of line n: its kind, the number of its pins, 1 for an output, and what its pins 1 and 2 name.
fn put_line(circuit: &mut Circuit, n: usize, kind: u8, pins: u8, out: u8, first: u8, second: u8)
    requires { n < 6 }
{
    let at = 12 * n;
    circuit[at] = kind;
    circuit[at + 1] = pins;
    circuit[at + 2] = out;
    circuit[at + 4] = first;
    circuit[at + 6] = second;
}

// Specimen A: input 0; flip-flop 1 of 3, output; 2 = NOT 1; 3 = AND 0, 2.
fn specimen_a() -> Circuit {
    let mut circuit = [0u8; 72];
    put_line(&mut circuit, 1, 1, 1, 1, 3, 0);
    put_line(&mut circuit, 2, 3, 1, 0, 1, 0);
    put_line(&mut circuit, 3, 4, 2, 0, 0, 2);
    circuit
}

// Specimen A with these files.
fn list_a(rt: &impl Print, title: &str, test: &[u8], faults: &[u8], plan: &[u8]) {
    let circuit = specimen_a();
    list_lines(rt, title, &circuit, 4, test, faults, plan);
}

// Files of which some are longer than what was read.
fn list_longer(rt: &impl Print, title: &str, circuit: bool, test: bool, faults: bool, plan: bool) {
    let longer = Longer {
        circuit,
        test,
        faults,
        plan,
    };
    let records = specimen_a();
    list(rt, title, &records, &TEST, &FAULTS, b"", longer);
}

// The first file that is too long is named, in the order of the files.
fn too_long(rt: &impl Print) {
    list_longer(rt, "circuit longer", true, false, false, false);
    list_longer(rt, "test longer", false, true, false, false);
    list_longer(rt, "faults longer", false, false, true, false);
    list_longer(rt, "plan longer", false, false, false, true);
    list_longer(rt, "circuit and plan longer", true, false, false, true);
    list_longer(rt, "test and faults longer", false, true, true, false);
    list_longer(rt, "faults and plan longer", false, false, true, true);
    list_longer(rt, "all longer", true, true, true, true);
}

// The area made of these four faults, again and again.
fn fill(area: &mut Area, faults: &[u8; 16]) {
    for place in area.chunks_exact_mut(16) {
        place.copy_from_slice(faults);
    }
}

// Specimen A, with the faults at the beginning of an area: so many bytes. Takes the array whole, for the same reason.
fn list_faults(rt: &impl Print, title: &str, area: &Area, size: usize)
    requires { size ≤ 65536 }
{
    list_a(rt, title, &TEST, &area[..size], b"");
}

// A file of 65,536 bytes is not too long; here each breaks a rule.
fn full_files(rt: &impl Print) {
    let zeros = [0u8; 65536];
    let mut faults = [0u8; 65536];
    fill(
        &mut faults,
        &[0, 0, 0, 1, 0, 0, 0, 1, 0, 0, 0, 1, 0, 0, 0, 1],
    );
    list_whole(rt, "full circuit", &zeros, &TEST, &FAULTS, b"");
    list_a(rt, "full test", &zeros, &FAULTS, b"");
    list_faults(rt, "full faults", &faults, 65536);
    list_a(rt, "full plan", &TEST, &FAULTS, &zeros);
}

// The result area holds the records of 4,096 faults.
fn many_faults(rt: &impl Print) {
    let mut faults = [0u8; 65536];
    fill(&mut faults, &FAULTS);
    list_faults(rt, "no fault", &faults, 0);
    list_faults(rt, "4095 faults", &faults, 16380);
    list_faults(rt, "4096 faults", &faults, 16384);
    list_faults(rt, "4097 faults", &faults, 16388);
}

// Refusals that name a record or a byte.
fn refused_places(rt: &impl Print) {
    let mut circuit = specimen_a();
    put_line(&mut circuit, 3, 10, 2, 0, 0, 2);
    list_lines(rt, "kind of record 3", &circuit, 4, &TEST, &FAULTS, b"");
    list_a(
        rt,
        "byte 12 of the test",
        &[0, 0, 0, 0, 0, 0, 0, 0, 0, 0, 0, 0, 2],
        &FAULTS,
        b"",
    );
    list_a(
        rt,
        "line of fault 2",
        &TEST,
        &[0, 0, 0, 1, 0, 0, 0, 0, 4, 0, 0, 1],
        b"",
    );
}

// The work area is as long as 862 time units need: input 0, four flip-flops of it, and 5 = buffer 0, output.
fn long_tests(rt: &impl Print) {
    let mut circuit = [0u8; 72];
    put_line(&mut circuit, 1, 1, 1, 0, 0, 0);
    put_line(&mut circuit, 2, 1, 1, 0, 0, 0);
    put_line(&mut circuit, 3, 1, 1, 0, 0, 0);
    put_line(&mut circuit, 4, 1, 1, 0, 0, 0);
    put_line(&mut circuit, 5, 2, 1, 1, 0, 0);
    list_lines(
        rt,
        "862 time units",
        &circuit,
        6,
        &[0; 862],
        &[5, 0, 0, 1],
        b"",
    );
    list_lines(
        rt,
        "863 time units",
        &circuit,
        6,
        &[0; 863],
        &[5, 0, 0, 1],
        b"",
    );
}

// Specimen B with the plan of two pairs: input 0; flip-flop 1 of 2, output; 2 = AND 0, 1.
fn with_plan(rt: &impl Print) {
    let mut circuit = [0u8; 72];
    put_line(&mut circuit, 1, 1, 1, 1, 2, 0);
    put_line(&mut circuit, 2, 4, 2, 0, 0, 1);
    list_lines(
        rt,
        "specimen B",
        &circuit,
        3,
        &[0, 0],
        &[0, 0, 0, 1],
        &[0, 0, 0, 0, 1, 0, 0, 0],
    );
}

fn main(rt: HostRuntime) {
    list_a(&rt, "specimen A", &TEST, &FAULTS, b"");
    with_plan(&rt);
    list_whole(&rt, "no files", b"", b"", b"", b"");
    too_long(&rt);
    full_files(&rt);
    refused_places(&rt);
    long_tests(&rt);
    many_faults(&rt);
}
