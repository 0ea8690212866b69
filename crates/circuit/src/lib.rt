// The fields of circuit and fault records, the sizes of a circuit, and the tables of its flip-flops and outputs.
#![tactic(auto)]

ghost use Rattle.std.specs.Prelude.{true, cond, ◌≡◌, ℕ, ◌+◌, ◌*◌, ◌/◌, ◌%◌, ◌<◌, ◌≤◌, eqb, leb, length, get_or, set};
ghost use Rattle.lists.specs.Scan.{count_below, select};
ghost use Rattle.model.specs.Inputs.{N, pin_count, pin_line, is_gate, fault_at};
ghost use Rattle.model.specs.Accepted.{ValidCircuit};
ghost use Rattle.circuit.specs.Table.{FieldOf, SizesOf, FaultOf, Listed, byte_is_one, pin_read, pin_number, PinTable, Tables};

// N, I, F and O.
#[derive(Clone, Copy)]
pub struct Sizes {
    pub lines: usize,
    pub inputs: usize,
    pub flops: usize,
    pub outputs: usize,
}

// Line, pin (0 the line itself) and stuck value.
#[derive(Clone, Copy)]
pub struct Fault {
    pub line: usize,
    pub pin: usize,
    pub value: u8,
}

// The bytes of a record that have names. They are numbers, since a table lists lines by any byte of theirs.
pub const KIND: usize = 0;

pub const PINS: usize = 1;

pub const MARK: usize = 2;

pub const SPARE: usize = 3;

// One of the first four bytes of line n's record: its kind, how many pins it has, 1 if it is an output, and 0.
pub fn field(c: &[u8], n: usize, byte: usize) -> u8
    requires { (12 * n + 12 ≤ length c.now) × (byte < 12) }
    ensures { FieldOf c.now n byte result }
{
    c[12 * n + byte]
}

// How many pins line n has, in full width.
pub fn pins_of(c: &[u8], n: usize) -> usize
    requires { 12 * n + 12 ≤ length c.now }
    ensures { (result ≡ pin_count c.now n) × (result < 256) }
{
    usize::from(field(c, n, PINS))
}

// The line that pin p, 1 to 4, names.
pub fn pin_of(c: &[u8], n: usize, p: usize) -> usize
    requires { (12 * n + 12 ≤ length c.now) × (1 ≤ p) × (p ≤ 4) }
    ensures { (result ≡ pin_line c.now n p) × (result < 65536) }
{
    basics::word_at(c, 12 * n + 2 + 2 * p)
}

// Fault j of a list.
pub fn fault_of(fs: &[u8], j: usize) -> Fault
    requires { 4 * j + 4 ≤ length fs.now }
    ensures { FaultOf (fault_at fs.now j) result }
{
    Fault {
        line: basics::word_at(fs, 4 * j),
        pin: usize::from(fs[4 * j + 2]),
        value: fs[4 * j + 3],
    }
}

// The sizes of a circuit with so many lines.
pub fn sizes_of(c: &[u8], lines: usize) -> Sizes
    requires { (12 * lines ≤ length c.now) × (lines ≡ N c.now) }
    ensures { SizesOf c.now result }
{
    let mut inputs = 0;
    let mut flops = 0;
    let mut outputs = 0;
    for n in 0..lines {
        let k = field(c, n, KIND);
        inputs += usize::from(k == 0);
        flops += usize::from(k == 1);
        outputs += usize::from(field(c, n, MARK) == 1);
    }
    Sizes {
        lines,
        inputs,
        flops,
        outputs,
    }
}

// The lines whose records have 1 in this byte.
fn list_lines(c: &[u8], lines: usize, byte: usize, table: &mut [usize])
    requires { (12 * lines ≤ length c.now) × (lines ≤ 4096) × (byte < 12) × (count_below (λ n. byte_is_one c.now byte n) lines ≤ length table.old) }
    ensures { Listed (select (λ n. byte_is_one c.now byte n) lines) table.new }
{
    let mut s = 0;
    for n in 0..lines {
        if c[12 * n + byte] == 1 {
            table[s] = n;
            s += 1;
        }
    }
}

// Pin p, where a gate has so many, and else pin 1.
fn pin_read(count: usize, p: usize) -> usize
    ensures { result ≡ pin_read count p }
{
    if p <= count { p } else { 1 }
}

// The number by which pin p, 1 to 4, of gate n is read; 0 for a line that is no gate.
fn pin_number(c: &[u8], n: usize, p: usize) -> u16
    requires { (ValidCircuit c.now) × (n < N c.now) × (1 ≤ p) × (p ≤ 4) }
    ensures { is_gate c.now n ≡ true → result ≡ pin_number c.now n p }
{
    let k = field(c, n, KIND);
    if k < 2 {
        return 0;
    }
    let pin = pin_read(pins_of(c, n), p);
    let number = 2 * pin_of(c, n, pin) + usize::from(k / 2 == 3);
    number as u16
}

// The pins of all gates, as they are read.
fn list_pins(c: &[u8], lines: usize, table: &mut [u16])
    requires { (ValidCircuit c.now) × (lines ≡ N c.now) × (4 * lines ≤ length table.old) }
    ensures { (e : ℕ) → e < 4 * lines → is_gate c.now (e / 4) ≡ true → get_or table.new e 0 ≡ pin_number c.now (e / 4) (e % 4 + 1) }
{
    for e in 0..4 * lines {
        table[e] = pin_number(c, e / 4, e % 4 + 1);
    }
}

// The place of line n, of kind k, with i inputs and s flip-flops below it, where it is no gate.
fn list_place(table: &mut [u16], n: usize, k: u8, i: usize, s: usize)
    requires { (4 * n < length table.old) × (i < 65536) × (s < 65536) }
    ensures { table.new ≡ cond (leb 2 k) table.old (set table.old (4 * n) (cond (eqb k 0) i s)) }
{
    match k {
        0 => table[4 * n] = i as u16,
        1 => table[4 * n] = s as u16,
        _ => {}
    }
}

// The places of all other lines.
fn list_places(c: &[u8], lines: usize, table: &mut [u16])
    requires { (ValidCircuit c.now) × (lines ≡ N c.now) × (4 * lines ≤ length table.old)
        × ((e : ℕ) → e < 4 * lines → is_gate c.now (e / 4) ≡ true → get_or table.old e 0 ≡ pin_number c.now (e / 4) (e % 4 + 1)) }
    ensures { PinTable c.now table.new }
{
    let mut i = 0;
    let mut s = 0;
    for n in 0..lines {
        let k = field(c, n, KIND);
        list_place(table, n, k, i, s);
        i += usize::from(k == 0);
        s += usize::from(k == 1);
    }
}

// The tables of a circuit: pins and places of all lines, the lines of the flip-flops, and those of the outputs.
pub fn list_tables(
    c: &[u8],
    lines: usize,
    pins: &mut [u16],
    flops: &mut [usize],
    outs: &mut [usize],
)
    requires { (ValidCircuit c.now) × (lines ≡ N c.now) × (4 * lines ≤ length pins.old) × (256 ≤ length flops.old) × (256 ≤ length outs.old) }
    ensures { Tables c.now pins.new flops.new outs.new }
{
    list_pins(c, lines, pins);
    list_places(c, lines, pins);
    list_lines(c, lines, KIND, flops);
    list_lines(c, lines, MARK, outs);
}
