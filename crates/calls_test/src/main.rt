// Makes every call of calls.dat, a line of print for each: what the call answered, the whole result area in hexadecimal, and where the call
// refused whether the work area is as it was. A call is its number and a zero byte, then in 16 bits each k, the lengths of work area and
// result area and those of circuit, test, faults, plan and verdicts, and then these five. Both areas hold one byte throughout before the call.
#![tactic(auto)]

ghost use Rattle.std.specs.Prelude.{◌<◌, ◌≤◌, length, IfSome};

use calls::Lent;
use job::Outcome;
use printing::BLANK;

// As long as 16 bits can say.
const AREA: usize = 65535;

// What was answered, and the result area of this length. Takes the arrays whole, so that nothing is to be shown of their lengths after a part was
// lent.
fn print_answered(
    rt: &impl Print,
    outcome: Outcome,
    size: usize,
    work: &[u8; AREA],
    res: &[u8; AREA],
)
    requires { size ≤ 65535 }
{
    printing::outcome(rt, outcome);
    if 0 < size {
        printing::text(rt, b" ");
        printing::hex(rt, &res[..size], AREA);
    }
    match outcome {
        Ok(_) => printing::text(rt, b"\n"),
        Err(_) => printing::kept_or_changed(rt, printing::kept(work, BLANK)),
    }
}

fn run(rt: &impl Print, number: u8, lent: Lent, room: usize, size: usize)
    requires { (room ≤ 65535) × (size ≤ 65535) }
{
    let mut work = [BLANK; AREA];
    let mut result = [BLANK; AREA];
    let outcome = calls::call(number, lent, &mut work[..room], &mut result[..size]);
    print_answered(rt, outcome, size, &work, &result);
}

// The call that begins here; what is behind it, or none where it is cut off.
fn run_call<'a>(rt: &impl Print, calls: &'a [u8]) -> Option<&'a [u8]>
    ensures { IfSome result (λ rest. length rest.now < length calls.now) }
{
    let (head, rest) = calls.split_at_checked(18)?;
    let (circuit, rest) = rest.split_at_checked(basics::word_at(head, 8))?;
    let (test, rest) = rest.split_at_checked(basics::word_at(head, 10))?;
    let (faults, rest) = rest.split_at_checked(basics::word_at(head, 12))?;
    let (plan, rest) = rest.split_at_checked(basics::word_at(head, 14))?;
    let (verdicts, rest) = rest.split_at_checked(basics::word_at(head, 16))?;
    let lent = Lent {
        circuit,
        test,
        faults,
        plan,
        verdicts,
        k: basics::word_at(head, 2),
    };
    let room = basics::word_at(head, 4);
    let size = basics::word_at(head, 6);
    run(rt, head[0], lent, room, size);
    Some(rest)
}

fn main(rt: HostRuntime) {
    let mut calls = [0u8; 65536];
    let size = printing::read(&rt, b"calls.dat", &mut calls);
    printing::run_jobs(&rt, &calls[..size], |calls| run_call(&rt, calls));
}
