// Calls Simulate on every job of jobs.dat and prints what it answered and wrote. A job is five 16-bit numbers, the bytes of circuit,
// test, faults, work area and result area, and then the bytes of circuit, test and faults. Both areas hold one byte throughout before the
// call; `kept` says afterwards that the bytes that must stay have stayed: those of the result area past the result, and where the call
// refused all of both areas.
#![tactic(auto)]

ghost use Rattle.std.specs.Prelude.{◌<◌, length, IfSome};

use printing::BLANK;

// How long the areas of a job may be.
const WORK: usize = 40960;

const RESULT: usize = 2048;

fn print_done(rt: &impl Print, n: usize, res: &[u8; RESULT]) {
    printing::done(rt, n);
    printing::text(rt, b" ");
    if RESULT < n {
        printing::text(rt, b"TOO MANY\n");
        return;
    }
    let (responses, rest) = res.split_at(n);
    printing::values(rt, responses);
    printing::kept_or_changed(rt, printing::kept(rest, BLANK));
}

fn run(rt: &impl Print, circuit: &[u8], test: &[u8], faults: &[u8], room: usize, size: usize) {
    let mut work = [BLANK; WORK];
    let mut result = [BLANK; RESULT];
    if WORK < room {
        printing::text(rt, b"the work area is too long\n");
        return;
    }
    if RESULT < size {
        printing::text(rt, b"the result area is too long\n");
        return;
    }
    let outcome = simulate::simulate(
        circuit,
        test,
        faults,
        &mut work[..room],
        &mut result[..size],
    );
    match outcome {
        Ok(n) => print_done(rt, n, &result),
        Err(refusal) => {
            printing::refused_job(rt, refusal.rule.number(), refusal.at, &work, &result);
        }
    }
}

// The job that begins here; what is behind it, or none where it is cut off. Bytes that are too few for a job's five numbers are let go.
fn run_job<'a>(rt: &impl Print, jobs: &'a [u8]) -> Option<&'a [u8]>
    ensures { 0 < length jobs.now → IfSome result (λ rest. length rest.now < length jobs.now) }
{
    let Some((head, rest)) = jobs.split_at_checked(10) else {
        return Some(b"");
    };
    let (circuit, rest) = rest.split_at_checked(basics::word_at(head, 0))?;
    let (test, rest) = rest.split_at_checked(basics::word_at(head, 2))?;
    let (faults, rest) = rest.split_at_checked(basics::word_at(head, 4))?;
    let room = basics::word_at(head, 6);
    let size = basics::word_at(head, 8);
    run(rt, circuit, test, faults, room, size);
    Some(rest)
}

fn main(rt: HostRuntime) {
    let mut jobs: [u8; 262144] = printing::zeros();
    let size = printing::read(&rt, b"jobs.dat", &mut jobs);
    printing::run_jobs(&rt, &jobs[..size], |jobs| run_job(&rt, jobs));
}
