// The four calls of document 01 by number, for programs that are told which to make.
#![tactic(auto)]

ghost use Rattle.std.specs.Prelude.{◌≡◌, length};
ghost use Rattle.model.specs.Group.{group_answer, group_area};
ghost use Rattle.job.specs.Job.{answer_of};
ghost use Rattle.calls.specs.Numbers.{Numbered, number_of};
ghost use Rattle.calls.specs.Made.{made_answer, made_area, kept_work};

use job::Outcome;

// Which call, numbered from 1 on.
#[derive(Clone, Copy)]
pub enum Kind {
    Simulate,
    Grade,
    Choose,
    Group,
}

// A number that no call has.
#[derive(Clone, Copy)]
pub struct UnknownCall(pub u8);

impl TryFrom<u8> for Kind {
    type Error = UnknownCall;

    ghost try_from_gives = { Numbered };

    fn try_from(number: u8) -> Result<Kind, UnknownCall> {
        match number {
            1 => Ok(Kind::Simulate),
            2 => Ok(Kind::Grade),
            3 => Ok(Kind::Choose),
            4 => Ok(Kind::Group),
            _ => Err(UnknownCall(number)),
        }
    }
}

// What is lent to be read; each call takes what it takes of it.
#[derive(Clone, Copy)]
pub struct Lent<'a> {
    pub circuit: &'a [u8],
    pub test: &'a [u8],
    pub faults: &'a [u8],
    pub plan: &'a [u8],
    pub verdicts: &'a [u8],
    pub k: usize,
}

// Makes the call of this number; for a number that no call has, Group.
pub fn call(number: u8, lent: Lent, work: &mut [u8], res: &mut [u8]) -> Outcome
    ensures answers { (kind : Kind) → number_of kind ≡ number → answer_of result ≡ made_answer kind lent.entry.circuit.now lent.entry.test.now lent.entry.faults.now lent.entry.plan.now lent.entry.verdicts.now lent.entry.k (length work.old) (length res.old) }
    ensures writes { (kind : Kind) → number_of kind ≡ number → res.new ≡ made_area kind lent.entry.circuit.now lent.entry.test.now lent.entry.faults.now lent.entry.plan.now lent.entry.verdicts.now lent.entry.k (length work.old) res.old }
    ensures keeps { (kind : Kind) → number_of kind ≡ number → work.new ≡ kept_work kind lent.entry.circuit.now lent.entry.test.now lent.entry.faults.now lent.entry.plan.now lent.entry.k (length res.old) work.new work.old }
    ensures other { ((kind : Kind) → number_of kind ≡ number → ⊥) → (answer_of result ≡ group_answer lent.entry.verdicts.now (length res.old)) × (res.new ≡ group_area lent.entry.verdicts.now res.old) × (work.new ≡ work.old) }
{
    make(
        Kind::try_from(number).unwrap_or(Kind::Group),
        lent,
        work,
        res,
    )
}

// Makes the call.
pub fn make(kind: Kind, lent: Lent, work: &mut [u8], res: &mut [u8]) -> Outcome
    ensures answers { answer_of result ≡ made_answer kind lent.entry.circuit.now lent.entry.test.now lent.entry.faults.now lent.entry.plan.now lent.entry.verdicts.now lent.entry.k (length work.old) (length res.old) }
    ensures writes { res.new ≡ made_area kind lent.entry.circuit.now lent.entry.test.now lent.entry.faults.now lent.entry.plan.now lent.entry.verdicts.now lent.entry.k (length work.old) res.old }
    ensures keeps { work.new ≡ kept_work kind lent.entry.circuit.now lent.entry.test.now lent.entry.faults.now lent.entry.plan.now lent.entry.k (length res.old) work.new work.old }
{
    let Lent {
        circuit,
        test,
        faults,
        plan,
        verdicts,
        k,
    } = lent;
    match kind {
        Kind::Simulate => simulate::simulate(circuit, test, faults, work, res),
        Kind::Grade => grade::grade(circuit, test, faults, plan, k, work, res),
        Kind::Choose => choose::choose(circuit, test, faults, k, work, res),
        Kind::Group => group::group(verdicts, res),
    }
}
