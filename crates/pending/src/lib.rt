// Nout of every time unit: the places, at the unit or later, where the fault-free output is specified and the faulty one X. One pass from
// the last unit to the first, which compares the two rows of each unit once.
#![tactic(auto)]

ghost use Rattle.std.specs.Prelude.{◌≡◌, ℕ, ◌*◌, ◌<◌, ◌≤◌, List, length, get_or};
ghost use Rattle.model.specs.Inputs.{L, Fault};
ghost use Rattle.model.specs.Expansion.{count_open, nout};
ghost use Rattle.pending.specs.Pending.{Responses, Outstanding, OpenUnits};

// How many places of two rows were compared, and how many of them are open: specified in the first and X in the second.
#[derive(Clone, Copy)]
struct Comparison {
    places: usize,
    open_places: usize,
}

// Two rows of one length, compared place by place: every turn of the loop compares one place and counts it as compared. A row has at most 256
// places, so 16 bits hold how many are open; the machine adds more such numbers at once than longer ones.
fn compare_rows(free: &[u8], faulty: &[u8]) -> Comparison
    requires { (length free.now ≡ length faulty.now) × (length free.now ≤ 256) }
    ensures { (result.places ≡ length free.now) × (result.open_places ≡ count_open free.now faulty.now) × (result.open_places ≤ result.places) }
{
    let mut places: usize = 0;
    let mut open_places: u16 = 0;
    // The count is the loop's index: a place that is compared is counted, and no other.
    while places < free.len() {
        let is_open = (free[places] <= 1) & (faulty[places] == 2);
        open_places += u16::from(is_open);
        places += 1;
    }
    Comparison {
        places,
        open_places: usize::from(open_places),
    }
}

// Nout of every unit, and 0 behind the last, from the outputs without and with the fault, a row a unit. The row of unit u ends where that of the
// next begins. Returns how many places were compared.
pub fn outstanding(
    units: usize,
    outputs: usize,
    free: &[u8],
    faulty: &[u8],
    table: &mut [usize],
) -> usize
    requires { (units ≤ 1024) × (outputs ≤ 256) × (units * outputs ≤ length free.now) × (units * outputs ≤ length faulty.now) × (units < length table.old) }
    ensures { (c t : List ℕ) (f : Fault) → Responses units outputs free.now faulty.now c t f → Outstanding c t f table.new result }
{
    let mut compared: usize = 0;
    let mut later: usize = 0;
    let mut to = units * outputs;
    table[units] = 0;
    for u in (0..units).rev() {
        let at = outputs * u;
        let here = compare_rows(&free[at..to], &faulty[at..to]);
        compared += here.places;
        let all = later + here.open_places;
        table[u] = all;
        later = all;
        to = at;
    }
    compared
}

// How many units there are before the first with Nout 0. Nout never grows from a unit to the next.
pub fn open_units(units: usize, table: &[usize]) -> usize
    requires { (units ≤ 1024) × (units < length table.now) }
    ensures { (c t : List ℕ) (f : Fault) → units ≡ L c t → ((u : ℕ) → u ≤ L c t → get_or table.now u 0 ≡ nout c t f u) → OpenUnits c t f result }
{
    for u in 0..units {
        if table[u] == 0 {
            return u;
        }
    }
    units
}
