// The program `names`: `NUMBER NAME` for each line of the circuit that a bench text describes, in order, on standard output. What is wrong is told
// on standard error.
#![tactic(auto)]

ghost use Rattle.std.specs.Prelude.{◌≡◌, ◌+◌, ◌*◌, ◌<◌, ◌≤◌, length};
ghost use Rattle.printing.specs.Prefix.{IsPrefixLen};
ghost use Rattle.names.specs.Named.{Named};

use bench_file::LONGEST;
use lookup::{HEADS, NAMES};
use read_bench::RECORDS;

// Room for 4,096 lines of 38 bytes: a number of four digits, a space, a name of 32 bytes and byte 10.
const PRINT: usize = 155648;

// Line n with its name, behind the lines that stand there; where the next begins.
fn put_line(out: &mut [u8], at: usize, n: usize, name: &[u8]) -> usize
    requires { (at + 38 ≤ length out.old) × (n < 4096) × (length name.now ≤ 32) }
    ensures { result ≤ at + 38 }
{
    let begin = decimals::put_field(out, at, n, b' ');
    let end = decimals::put_text(out, begin, name);
    decimals::put_byte(out, end, b'\n')
}

// So many lines with their names; how many bytes.
fn put_names(out: &mut [u8], text: &[u8], names: &[usize], count: usize) -> usize
    requires { (38 * count ≤ length out.old) × Named text.now names.now count }
    ensures { IsPrefixLen result out.new }
{
    let mut at: usize = 0;
    for n in 0..count {
        at = put_line(out, at, n, lookup::name(text, names, n));
    }
    at
}

fn write(rt: &HostRuntime, text: &[u8], names: &[usize; NAMES], count: usize)
    requires { Named text.now names.now count }
{
    let mut out = [0u8; PRINT];
    let size = put_names(&mut out, text, names, count);
    printing::deliver(rt, &out[..size], b"names: cannot write the names\n");
}

// The names of the text's lines, or why there are none.
fn list(rt: &HostRuntime, text: &[u8]) {
    let mut names = [0usize; NAMES];
    let mut heads = [0usize; HEADS];
    let mut records = [0u8; RECORDS];
    match read_bench::inspect(text, &mut names, &mut heads, &mut records) {
        Ok(count) => write(rt, text, &names, count),
        Err(refusal) => {
            bench_file::tell_refused(rt, b"names", refusal.rule.number(), refusal.at);
        }
    }
}

fn main(rt: HostRuntime) {
    let mut area: [u8; LONGEST] = printing::zeros();
    let read = bench_file::read_text(
        &rt,
        b"names",
        b"the number and the name of each line of a circuit",
        &mut area,
    );
    if let Some(size) = read {
        list(&rt, &area[..size]);
    }
}
