// Rows 1 to 6 of the table of refusals: what is wrong with a circuit. Rows are joined as the table joins them: the first that is broken.
#![tactic(auto)]

ghost use Rattle.std.specs.Prelude.{cond, List, ◌≡◌, ℕ, ◌+◌, ◌*◌, ◌≤◌, leb, length};
ghost use Rattle.lists.specs.Scan.{◌else◌, first_answer};
ghost use Rattle.model.specs.Inputs.{N, kind, pin_count};
ghost use Rattle.model.specs.Refusals.{refuse, row1, pins_fit, stray_bytes, misnames, rows2to5, row6};
ghost use Rattle.circuit.specs.Table.{SizesOf};
ghost use Rattle.rules.specs.Check.{number_of, refusal_of, CircuitChecked, names_from};

use circuit::Sizes;

// The rows of the table of refusals, in its order; a row's number is the one that a refusal is told by.
#[derive(Clone, Copy, Debug, PartialEq, Eq)]
pub enum Rule {
    CircuitLength = 1,
    Kind = 2,
    PinCount = 3,
    StrayBytes = 4,
    PinNames = 5,
    CircuitSizes = 6,
    TestLength = 7,
    TestByte = 8,
    FaultsLength = 9,
    Fault = 10,
    PlanLength = 11,
    MostPairs = 12,
    WorkArea = 13,
    ResultArea = 14,
    VerdictsLength = 15,
    Seed = 16,
    TimeUnits = 17,
    TextForm = 18,
    DefinedAgain = 19,
    NotDefined = 20,
}

impl Rule {
    pub fn number(self) -> u8
        ensures { result ≡ number_of self }
    {
        self as u8
    }
}

// Why an input is refused: the row that it breaks, and the record, byte or text line that breaks it.
#[derive(Clone, Copy, Debug, PartialEq, Eq)]
pub struct Refusal {
    pub rule: Rule,
    pub at: usize,
}

// Refused where the test holds.
#[tactic(auto, unfolding(crate::specs::Check::refusal_of, model::specs::Refusals::refuse))]
pub fn refuse(broken: bool, rule: Rule, at: usize) -> Result<(), Refusal>
    ensures { refusal_of result ≡ refuse broken (number_of rule) at }
{
    if broken {
        Err(Refusal { rule, at })
    } else {
        Ok(())
    }
}

// Row 1.
#[tactic(auto, unfolding(model::specs::Refusals::row1))]
fn check_length(c: &[u8]) -> Result<(), Refusal>
    ensures { refusal_of result ≡ row1 c.now }
{
    let size = c.len();
    let wrong = size == 0 || size % 12 != 0 || 49152 < size;
    refuse(wrong, Rule::CircuitLength, 0)
}

// Row 3, of any byte that stands for a kind.
#[tactic(auto, unfolding(model::specs::Refusals::pins_fit))]
pub fn pins_fit(k: u8, pins: usize) -> bool
    ensures { result ≡ pins_fit k pins }
{
    match k {
        0 => pins == 0,
        1..=3 => pins == 1,
        _ => 2 <= pins && pins <= 4,
    }
}

// Whether one of pins 1 to `to`, but for the first `from`, names line `limit` or a higher one.
fn names_from(c: &[u8], n: usize, from: usize, to: usize, limit: usize) -> bool
    requires { (12 * n + 12 ≤ length c.now) × (to ≤ 4) }
    ensures { result ≡ names_from c.now n from to limit }
{
    for i in 0..to {
        if from <= i && limit <= circuit::pin_of(c, n, i + 1) {
            return true;
        }
    }
    false
}

// Row 4: the mark is 0 or 1, the spare byte and the unused pins are 0.
#[tactic(auto, unfolding(model::specs::Refusals::stray_bytes, model::specs::Refusals::unused_named, crate::specs::Check::names_from))]
fn has_stray_bytes(c: &[u8], n: usize, pins: usize) -> bool
    requires { (12 * n + 12 ≤ length c.now) × (pins ≡ pin_count c.now n) }
    ensures { result ≡ stray_bytes c.now n }
{
    let mark = circuit::field(c, n, circuit::MARK);
    let spare = circuit::field(c, n, circuit::SPARE);
    1 < mark || 0 < spare || names_from(c, n, pins, 4, 1)
}

// Row 5: a gate names lower lines, a flip-flop any line.
#[tactic(auto, unfolding(model::specs::Refusals::misnames, model::specs::Refusals::misnamed, model::specs::Inputs::is_gate, crate::specs::Check::names_from))]
fn misnames(c: &[u8], lines: usize, n: usize, k: u8, pins: usize) -> bool
    requires { (12 * n + 12 ≤ length c.now) × (lines ≡ N c.now) × (k ≡ kind c.now n) × (pins ≡ pin_count c.now n) × (pins ≤ 4) }
    ensures { result ≡ misnames c.now n }
{
    let limit = if 2 <= k { n } else { lines };
    names_from(c, n, 0, pins, limit)
}

// Rows 2 to 5.
fn check_record(c: &[u8], lines: usize, n: usize) -> Result<(), Refusal>
    requires { (12 * n + 12 ≤ length c.now) × (lines ≡ N c.now) }
    ensures { refusal_of result ≡ rows2to5 c.now n }
{
    let k = circuit::field(c, n, circuit::KIND);
    let pins = circuit::pins_of(c, n);
    refuse(9 < k, Rule::Kind, n)?;
    refuse(!pins_fit(k, pins), Rule::PinCount, n)?;
    let stray = has_stray_bytes(c, n, pins);
    let misnamed = misnames(c, lines, n, k, pins);
    refuse(stray, Rule::StrayBytes, n)?;
    refuse(misnamed, Rule::PinNames, n)
}

// Each record in turn.
fn check_records(c: &[u8], lines: usize) -> Result<(), Refusal>
    requires { (12 * lines ≤ length c.now) × (lines ≡ N c.now) }
    ensures { refusal_of result ≡ first_answer (λ n. rows2to5 c.now n) lines }
{
    for n in 0..lines {
        check_record(c, lines, n)?;
    }
    Ok(())
}

// Row 6.
#[tactic(auto, unfolding(model::specs::Refusals::row6))]
fn check_sizes(s: Sizes) -> Result<(), Refusal>
    ensures { (c : List ℕ) → SizesOf c s → refusal_of result ≡ row6 c }
{
    let none = s.inputs == 0 || s.outputs == 0;
    let many = 256 < s.inputs || 256 < s.flops || 256 < s.outputs;
    refuse(none || many, Rule::CircuitSizes, 0)
}

// Rows 1 to 6, and the sizes of a circuit that they pass.
pub fn check_circuit(c: &[u8]) -> Result<Sizes, Refusal>
    ensures { CircuitChecked c.now result }
{
    check_length(c)?;
    let lines = c.len() / 12;
    check_records(c, lines)?;
    let sizes = circuit::sizes_of(c, lines);
    check_sizes(sizes)?;
    Ok(sizes)
}
