// Calls Grade on every job of jobs.dat and prints what it answered and wrote. A job is seven 32-bit numbers, the bytes of circuit, test,
// faults and plan, k, and the bytes of work area and result area, and then the bytes of circuit, test, faults and plan. Both areas hold one
// byte throughout before the call; `kept` says afterwards that the bytes that must stay have stayed: those of the result area past the
// records, and where the call refused all of both areas. The records follow, a line each.
#![tactic(auto)]

ghost use Rattle.std.specs.Prelude.{◌<◌, ◌≤◌, length, IfSome};

use printing::BLANK;
use rules::Refusal;

// How long the areas of a job may be.
const WORK: usize = 131072;

const RESULT: usize = 8192;

// The nine fields of a record.
fn print_record(rt: &impl Print, record: &[u8])
    requires { 16 ≤ length record.now }
{
    printing::row(
        rt,
        &[
            usize::from(record[0]),
            usize::from(record[1]),
            basics::word_at(record, 2),
            basics::word_at(record, 4),
            basics::word_at(record, 6),
            basics::word_at(record, 8),
            basics::word_at(record, 10),
            basics::word_at(record, 12),
            basics::word_at(record, 14),
        ],
    );
}

fn print_records(rt: &impl Print, records: &[u8]) {
    for record in records.chunks_exact(16) {
        print_record(rt, record);
    }
}

// The records of an area that was lent with this size.
fn print_done(rt: &impl Print, n: usize, size: usize, res: &[u8; RESULT])
    requires { size ≤ 8192 }
{
    printing::done(rt, n);
    if size / 16 < n {
        printing::text(rt, b" TOO MANY\n");
        return;
    }
    let (records, rest) = res.split_at(16 * n);
    printing::kept_or_changed(rt, printing::kept(rest, BLANK));
    print_records(rt, records);
}

// Takes the arrays whole, so that nothing is to be shown of their lengths after a part was lent.
fn print_refused(rt: &impl Print, refusal: Refusal, work: &[u8; WORK], res: &[u8; RESULT]) {
    printing::refused_job(rt, refusal.rule.number(), refusal.at, work, res);
}

fn run(
    rt: &impl Print,
    circuit: &[u8],
    test: &[u8],
    faults: &[u8],
    plan: &[u8],
    k: usize,
    room: usize,
    size: usize,
) {
    let mut work = [BLANK; WORK];
    let mut result = [BLANK; RESULT];
    if WORK < room {
        printing::text(rt, b"the work area is too long\n");
        return;
    }
    if RESULT < size {
        printing::text(rt, b"the result area is too long\n");
        return;
    }
    let outcome = grade::grade(
        circuit,
        test,
        faults,
        plan,
        k,
        &mut work[..room],
        &mut result[..size],
    );
    match outcome {
        Ok(n) => print_done(rt, n, size, &result),
        Err(refusal) => print_refused(rt, refusal, &work, &result),
    }
}

// The job that begins here; what is behind it, or none where it is cut off.
fn run_job<'a>(rt: &impl Print, jobs: &'a [u8]) -> Option<&'a [u8]>
    ensures { IfSome result (λ rest. length rest.now < length jobs.now) }
{
    let (head, rest) = jobs.split_at_checked(28)?;
    let (circuit, rest) = rest.split_at_checked(printing::long_at(head, 0))?;
    let (test, rest) = rest.split_at_checked(printing::long_at(head, 4))?;
    let (faults, rest) = rest.split_at_checked(printing::long_at(head, 8))?;
    let (plan, rest) = rest.split_at_checked(printing::long_at(head, 12))?;
    let k = printing::long_at(head, 16);
    let room = printing::long_at(head, 20);
    let size = printing::long_at(head, 24);
    run(rt, circuit, test, faults, plan, k, room, size);
    Some(rest)
}

fn main(rt: HostRuntime) {
    let mut jobs: [u8; 524288] = printing::zeros();
    let size = printing::read(&rt, b"jobs.dat", &mut jobs);
    printing::run_jobs(&rt, &jobs[..size], |jobs| run_job(&rt, jobs));
}
