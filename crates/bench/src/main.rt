// The program `bench`: the records of the circuit that a bench text describes, the bytes of circuit.dat, on standard output. What is wrong is told
// on standard error.
#![tactic(auto)]

ghost use Rattle.std.specs.Prelude.{◌*◌, ◌≤◌};

use bench_file::LONGEST;
use read_bench::RECORDS;

// The records that stand at the beginning of the area.
fn write(rt: &HostRuntime, records: &[u8; RECORDS], count: usize)
    requires { 12 * count ≤ 49152 }
{
    let size = 12 * count;
    printing::deliver(rt, &records[..size], b"bench: cannot write the circuit\n");
}

// The circuit of the text, or why there is none.
fn convert(rt: &HostRuntime, text: &[u8]) {
    let mut records = [0u8; RECORDS];
    match read_bench::read_bench(text, &mut records) {
        Ok(count) => write(rt, &records, count),
        Err(refusal) => {
            bench_file::tell_refused(rt, b"bench", refusal.rule.number(), refusal.at);
        }
    }
}

fn main(rt: HostRuntime) {
    let mut area: [u8; LONGEST] = printing::zeros();
    if let Some(size) = bench_file::read_text(
        &rt,
        b"bench",
        b"the records of a circuit",
        &mut area,
    ) {
        convert(&rt, &area[..size]);
    }
}
