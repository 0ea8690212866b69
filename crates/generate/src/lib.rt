// The call Generate: a pseudo-random test for a circuit, from a seed and a number of time units.
#![tactic(auto)]

ghost use Rattle.std.specs.Prelude.{◌≡◌, ◌≤◌, length};
ghost use Rattle.lists.specs.Scan.{tabulate};
ghost use Rattle.lists.specs.Field.{overwritten};
ghost use Rattle.model.specs.Generate.{step, generate_byte, generate_answer, generate_area};
ghost use Rattle.model.specs.Promises.{GeneratesTest};
ghost use Rattle.job.specs.Job.{answer_of};

use job::Outcome;

// The number's next step: shifted right by one, and combined with the mask if the bit shifted out was 1.
#[tactic(auto, unfolding(model::specs::Generate::step))]
pub fn step(x: u16) -> u16
    ensures { result ≡ step x }
{
    if x % 2 == 1 {
        return x / 2 ^ 0xb400;
    }
    x / 2
}

// So many bytes at the beginning of the area, each the lowest bit of a number that is one step further.
fn fill(seed: u16, size: usize, res: &mut [u8])
    requires { size ≤ length res.old }
    ensures { res.new ≡ overwritten (tabulate (λ b. generate_byte seed b) 0 size) res.old }
{
    let mut x = seed;
    for b in 0..size {
        x = step(x);
        res[b] = (x % 2) as u8;
    }
}

// A pseudo-random test of so many time units; see README.md, Calls.
pub fn generate(circuit: &[u8], seed: u16, units: usize, res: &mut [u8]) -> Outcome
    ensures answers { answer_of result ≡ generate_answer circuit.now seed units (length res.old) }
    ensures writes { res.new ≡ generate_area circuit.now seed units res.old }
    ensures promise { GeneratesTest circuit.now units (answer_of result) res.new }
{
    let size = job::check_generate(circuit, seed, units, res.len())?;
    fill(seed, size, res);
    Ok(size)
}
