// Plain simulation of the job in circuit.dat, test.dat and faults.dat, without a fault and then with each fault of the list. Prints of each
// fault its line, pin and value, and the first time unit at which an output shows the opposite of the fault-free response.
#![tactic(auto)]

ghost use Rattle.std.specs.Prelude.{◌<◌, ◌≤◌, length, IfSome};

fn opposite(a: u8, b: u8) -> bool {
    match a {
        0 => b == 1,
        1 => b == 0,
        _ => false,
    }
}

// The time unit of the first place at which they are opposite, where there are so many outputs.
fn print_time(rt: &impl Print, free: &[u8], faulty: &[u8], outputs: usize)
    requires { 0 < outputs }
{
    match free.iter().zip(faulty).position(|(a, b)| opposite(*a, *b)) {
        Some(place) => printing::row(rt, &[place / outputs]),
        None => printing::text(rt, b"never\n"),
    }
}

// The responses, with at most one fault; how many. There is none where the job is refused, and number and position are printed.
fn respond(
    rt: &impl Print,
    circuit: &[u8],
    test: &[u8],
    fault: &[u8],
    res: &mut [u8],
) -> Option<usize>
    ensures { IfSome result (λ n. n ≤ length res.old) }
{
    let mut work = [0u8; 4096];
    match simulate::simulate(circuit, test, fault, &mut work, res) {
        Ok(size) => (size <= res.len()).then_some(size),
        Err(refusal) => {
            printing::refused(rt, refusal.rule.number(), refusal.at);
            printing::text(rt, b"\n");
            None
        }
    }
}

fn print_fault(
    rt: &impl Print,
    circuit: &[u8],
    test: &[u8],
    fault: &[u8],
    free: &[u8],
    outputs: usize,
)
    requires { (4 ≤ length fault.now) × (0 < outputs) }
{
    let mut result = [0u8; 256];
    let told = circuit::fault_of(fault, 0);
    printing::numbers(rt, &[told.line, told.pin, usize::from(told.value)]);
    printing::text(rt, b" ");
    if let Some(size) = respond(rt, circuit, test, fault, &mut result) {
        print_time(rt, free, &result[..size], outputs);
    }
}

fn print_faults(
    rt: &impl Print,
    circuit: &[u8],
    test: &[u8],
    faults: &[u8],
    free: &[u8],
    outputs: usize,
)
    requires { 0 < outputs }
{
    for fault in faults.chunks_exact(4) {
        print_fault(rt, circuit, test, fault, free, outputs);
    }
}

fn outputs_of(circuit: &[u8]) -> usize {
    let sizes = circuit::sizes_of(circuit, circuit.len() / 12);
    sizes.outputs
}

// A job that is accepted has a response and an output.
fn run(rt: &impl Print, circuit: &[u8], test: &[u8], faults: &[u8]) {
    let mut free = [0u8; 256];
    let Some(size) = respond(rt, circuit, test, b"", &mut free) else {
        return;
    };
    let outputs = outputs_of(circuit);
    if 0 < outputs {
        print_faults(rt, circuit, test, faults, &free[..size], outputs);
    }
}

fn main(rt: HostRuntime) {
    let mut circuit = [0u8; 1024];
    let mut test = [0u8; 1024];
    let mut faults = [0u8; 1024];
    let lines = printing::read(&rt, b"circuit.dat", &mut circuit);
    let units = printing::read(&rt, b"test.dat", &mut test);
    let count = printing::read(&rt, b"faults.dat", &mut faults);
    run(&rt, &circuit[..lines], &test[..units], &faults[..count]);
}
