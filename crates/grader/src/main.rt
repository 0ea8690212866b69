// The program: reads circuit.dat, test.dat, faults.dat and plan.dat and prints what `listing` makes of them. A file that cannot be read, and a
// list that cannot be written, has a line on standard error.
#![tactic(auto)]

ghost use Rattle.std.specs.Prelude.{◌≤◌, length, IfSome};
ghost use Rattle.listing.specs.Print.{PrintRoom};
ghost use Rattle.printing.specs.Prefix.{IsPrefixLen};

use listing::Longer;
use printing::Input;

// Makes the list of the four files in a print of so many bytes, and writes it.
fn list<const ROOM: usize>(
    rt: &HostRuntime,
    circuit: &[u8],
    test: &[u8],
    faults: &[u8],
    plan: &[u8],
    longer: Longer,
)
    requires { PrintRoom faults.now ROOM × (ROOM ≤ 294960) }
{
    let mut work = [0u8; 65536];
    let mut result = [0u8; 65536];
    let mut groups = [0u8; 65536];
    let mut out = [0u8; ROOM];
    let size = listing::listing(
        circuit,
        test,
        faults,
        plan,
        longer,
        &mut work,
        &mut result,
        &mut groups,
        &mut out,
    );
    printing::deliver(rt, &out[..size], b"grader: cannot write the list\n");
}

// The same, with room for 56 faults, for 909, or for as many as have records: all pages of an array are touched when its function is called,
// and in a job of a few lines these are most of the time.
fn list_in_room(
    rt: &HostRuntime,
    circuit: &[u8],
    test: &[u8],
    faults: &[u8],
    plan: &[u8],
    longer: Longer,
) {
    match faults.len() {
        0..=224 => list::<4096>(rt, circuit, test, faults, plan, longer),
        225..=3636 => list::<65536>(rt, circuit, test, faults, plan, longer),
        _ => list::<294960>(rt, circuit, test, faults, plan, longer),
    }
}

// Puts a file's bytes at the start of the area; how many, and whether there are more behind them, or none where the file cannot be read.
fn read(rt: &HostRuntime, name: &[u8], area: &mut [u8]) -> Option<(usize, bool)>
    ensures { IfSome result (λ read. IsPrefixLen read.0 area.new) }
{
    match printing::read_file(rt, name, area) {
        Input::Missing => Some((0, false)),
        Input::Whole(size) => Some((size, false)),
        Input::Longer(size) => Some((size, true)),
        Input::Broken { .. } => None,
    }
}

// The list of the files, or none where one of them cannot be read.
fn run(rt: &HostRuntime) -> Option<()> {
    let mut circuit = [0u8; 65536];
    let mut test = [0u8; 65536];
    let mut faults = [0u8; 65536];
    let mut plan = [0u8; 65536];
    let lines = read(rt, b"circuit.dat", &mut circuit)?;
    let units = read(rt, b"test.dat", &mut test)?;
    let list = read(rt, b"faults.dat", &mut faults)?;
    let pairs = read(rt, b"plan.dat", &mut plan)?;
    let longer = Longer {
        circuit: lines.1,
        test: units.1,
        faults: list.1,
        plan: pairs.1,
    };
    list_in_room(
        rt,
        &circuit[..lines.0],
        &test[..units.0],
        &faults[..list.0],
        &plan[..pairs.0],
        longer,
    );
    Some(())
}

fn main(rt: HostRuntime) {
    let _ = run(&rt);
}
