// What the program prints, from what it has read of its four files: `too long` and a name, `refused` and two numbers, or a line for each fault and
// the total.
#![tactic(auto)]

ghost use Rattle.std.specs.Prelude.{◌≡◌, ◌+◌, ◌*◌, ◌≤◌, length, take};
ghost use Rattle.std.proofs.Math.Option.{none};
ghost use Rattle.lists.specs.Scan.{tabulate};
ghost use Rattle.model.specs.Inputs.{fault_count};
ghost use Rattle.model.specs.Listing.{number_line, refused_line, too_long_line, with_verdict, total_line, job_lines};
ghost use Rattle.decimals.specs.Put.{Put};
ghost use Rattle.rules.specs.Check.{number_of};
ghost use Rattle.listing.specs.Print.{fault_fields, FieldsOf, lines_below, Listable, PrintRoom, job_print, Printed};

use rules::Refusal;

// An area that is lent.
pub type Area = [u8; 65536];

// Which files have bytes behind those that were read: each may, with others or alone, so that there are four flags.
#[derive(Clone, Copy)]
pub struct Longer {
    pub circuit: bool,
    pub test: bool,
    pub faults: bool,
    pub plan: bool,
}

// `too long` and the name.
fn put_too_long(out: &mut [u8], name: &[u8]) -> usize
    requires { length name.now + 10 ≤ length out.old }
    ensures { Put 0 result (too_long_line name.now) out.old out.new }
{
    let words = decimals::put_text(out, 0, b"too long ");
    let end = decimals::put_text(out, words, name);
    decimals::put_byte(out, end, b'\n')
}

// `refused NUMBER POSITION`.
fn put_refused(out: &mut [u8], refusal: Refusal) -> usize
    requires { 100 ≤ length out.old }
    ensures { Put 0 result (refused_line (number_of refusal.rule) refusal.at) out.old out.new }
{
    let words = decimals::put_text(out, 0, b"refused ");
    let number = usize::from(refusal.rule.number());
    decimals::put_line(out, words, &[number, refusal.at])
}

// The numbers of fault j's line: line, pin, value, the record's first eight fields, group.
fn fields_of(faults: &[u8], records: &[u8], groups: &[u8], j: usize) -> [usize; 12]
    requires { (4 * j + 4 ≤ length faults.now) × (16 * j + 16 ≤ length records.now) × (2 * j + 2 ≤ length groups.now) }
    ensures { FieldsOf faults.now records.now groups.now j result }
{
    let fault = 4 * j;
    let record = 16 * j;
    [
        basics::word_at(faults, fault),
        usize::from(faults[fault + 2]),
        usize::from(faults[fault + 3]),
        usize::from(records[record]),
        usize::from(records[record + 1]),
        basics::word_at(records, record + 2),
        basics::word_at(records, record + 4),
        basics::word_at(records, record + 6),
        basics::word_at(records, record + 8),
        basics::word_at(records, record + 10),
        basics::word_at(records, record + 12),
        basics::word_at(groups, 2 * j),
    ]
}

// Fault j's line.
fn put_fault(
    faults: &[u8],
    records: &[u8],
    groups: &[u8],
    j: usize,
    out: &mut [u8],
    at: usize,
) -> usize
    requires { (4 * j + 4 ≤ length faults.now) × (16 * j + 16 ≤ length records.now) × (2 * j + 2 ≤ length groups.now) × (at + 72 ≤ length out.old) }
    ensures { (Put at result (number_line (fault_fields faults.now records.now groups.now j)) out.old out.new) × (result ≤ at + 72) }
{
    let fields = fields_of(faults, records, groups, j);
    decimals::put_line(out, at, &fields)
}

// The lines of all faults.
fn put_faults(faults: &[u8], records: &[u8], groups: &[u8], count: usize, out: &mut [u8]) -> usize
    requires { Listable faults.now records.now groups.now count (length out.old) }
    ensures { (Put 0 result (lines_below faults.now records.now groups.now count) out.old out.new) × (result ≤ 72 * count) }
{
    let mut at: usize = 0;
    for j in 0..count {
        at = put_fault(faults, records, groups, j, out, at);
    }
    at
}

// How many records have each verdict: a count for every byte, so that none is out of range.
fn count_verdicts(records: &[u8]) -> [usize; 256]
    ensures { result ≡ tabulate (λ v. with_verdict records.now v) 0 256 }
{
    let mut counts = [0usize; 256];
    for n in 0..records.len() / 16 {
        counts[usize::from(records[16 * n])] += 1;
    }
    counts
}

// `total` and the seven counts.
fn put_total(records: &[u8], out: &mut [u8], at: usize) -> usize
    requires { (length records.now ≤ 65536) × (at + 48 ≤ length out.old) }
    ensures { Put at result (total_line records.now) out.old out.new }
{
    let counts = count_verdicts(records);
    let words = decimals::put_text(out, at, b"total ");
    decimals::put_line(out, words, &counts[1..8])
}

// The lines of a job that Grade has accepted, and the total. Its records stand at the beginning of the result area; they are 4,096 at most, so
// their groups are written with less room than Group itself makes.
fn put_graded(faults: &[u8], count: usize, res: &Area, groups: &mut Area, out: &mut [u8]) -> usize
    requires { (count ≡ fault_count faults.now) × (count ≤ 4096) × (72 * count + 48 ≤ length out.old) }
    ensures { Put 0 result (job_lines none faults.now (take (16 * count) res.now)) out.old out.new }
{
    let records = &res[..16 * count];
    let mut keys = [0usize; 4096];
    let mut firsts = [0usize; 4096];
    group::write_groups(records, &mut keys, &mut firsts, groups);
    let lines = put_faults(faults, records, groups, count, out);
    put_total(records, out, lines)
}

// The lines of a job.
fn put_job(
    circuit: &[u8],
    test: &[u8],
    faults: &[u8],
    plan: &[u8],
    work: &mut Area,
    res: &mut Area,
    groups: &mut Area,
    out: &mut [u8],
) -> usize
    requires { PrintRoom faults.now (length out.old) }
    ensures { Put 0 result (job_print circuit.now test.now faults.now plan.now) out.old out.new }
{
    match grade::grade(circuit, test, faults, plan, 6, work, res) {
        Ok(count) => put_graded(faults, count, res, groups, out),
        Err(refusal) => put_refused(out, refusal),
    }
}

// What the program prints; see README.md, The program and its list.
pub fn listing(
    circuit: &[u8],
    test: &[u8],
    faults: &[u8],
    plan: &[u8],
    longer: Longer,
    work: &mut Area,
    res: &mut Area,
    groups: &mut Area,
    out: &mut [u8],
) -> usize
    requires { PrintRoom faults.now (length out.old) }
    ensures { Printed circuit.now test.now faults.now plan.now longer result out.new }
{
    if longer.circuit {
        return put_too_long(out, b"circuit.dat");
    }
    if longer.test {
        return put_too_long(out, b"test.dat");
    }
    if longer.faults {
        return put_too_long(out, b"faults.dat");
    }
    if longer.plan {
        return put_too_long(out, b"plan.dat");
    }
    put_job(circuit, test, faults, plan, work, res, groups, out)
}
