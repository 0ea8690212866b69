// What the programs `bench` and `names` share: the text that the argument names, read into an area, and a refusal told in words, with the name of
// the program that tells it.
#![tactic(auto)]

ghost use Rattle.std.specs.Prelude.{IfSome};
ghost use Rattle.printing.specs.Prefix.{IsPrefixLen};

use printing::{Input, tell};

// The longest text that the programs read.
pub const LONGEST: usize = 2097152;

fn usage(rt: &HostRuntime, program: &[u8], writes: &[u8]) {
    tell(rt, b"usage: ");
    tell(rt, program);
    tell(rt, b" [FILE]\nwrites ");
    tell(rt, writes);
    tell(
        rt,
        b" to standard output, from the bench text in FILE, or in circuit.bench where no FILE is named\n",
    );
}

fn tell_missing(rt: &HostRuntime, program: &[u8], name: &[u8]) {
    tell(rt, program);
    tell(rt, b": there is no file ");
    tell(rt, name);
    tell(rt, b"\n");
}

fn tell_longer(rt: &HostRuntime, program: &[u8], name: &[u8], room: usize) {
    tell(rt, program);
    tell(rt, b": ");
    tell(rt, name);
    tell(rt, b" is longer than ");
    let _ = rt.eprint(room);
    tell(rt, b" bytes\n");
}

// Puts the text in the file of this name at the start of the area; how many bytes, or none where standard error says why.
fn read_named(rt: &HostRuntime, program: &[u8], name: &[u8], area: &mut [u8]) -> Option<usize>
    ensures { IfSome result (λ n. IsPrefixLen n area.new) }
{
    match printing::read_file(rt, name, area) {
        Input::Whole(size) => return Some(size),
        Input::Missing => tell_missing(rt, program, name),
        Input::Longer(_) => tell_longer(rt, program, name, area.len()),
        Input::Broken { .. } => {}
    }
    None
}

// The same of the file that the argument names.
fn read_given(rt: &HostRuntime, program: &[u8], area: &mut [u8]) -> Option<usize>
    ensures { IfSome result (λ n. IsPrefixLen n area.new) }
{
    let mut name = [0u8; 4096];
    match printing::argument(rt, 1, &mut name) {
        Ok(size) => read_named(rt, program, &name[..size], area),
        Err(_) => {
            tell(rt, program);
            tell(rt, b": File name too long\n");
            None
        }
    }
}

// Puts the text at the start of the area: of the file that the one argument names, or of circuit.bench where there is none; how many bytes, or none
// where standard error says why. The program's name and what it writes are for the lines there.
pub fn read_text(rt: &HostRuntime, program: &[u8], writes: &[u8], area: &mut [u8]) -> Option<usize>
    ensures { IfSome result (λ n. IsPrefixLen n area.new) }
{
    if printing::has_argument(rt, 2) {
        usage(rt, program, writes);
        return None;
    }
    if printing::has_argument(rt, 1) {
        return read_given(rt, program, area);
    }
    read_named(rt, program, b"circuit.bench", area)
}

// What a row of the table of refusals says of a text.
fn words_of(rule: u8) -> &'static str {
    match rule {
        1 => "the text defines no line, or more than 4096",
        6 => "no input or no output, or above 256 inputs, flip-flops or outputs",
        18 => {
            "it is of none of the forms INPUT(a), OUTPUT(a), a = DFF(b), a = NAND(b, c), with 1 pin for BUFF and NOT, 2 to 4 for AND, NAND, OR, NOR, XOR and XNOR, names of 1 to 32 letters, digits or underscores, and no tab or carriage return"
        }
        19 => "it defines a name that an earlier text line defines",
        20 => "it names something that is not defined, or for a gate not above it",
        _ => "a rule that this program does not know",
    }
}

// One line: the number, the text line where the rule is on one, counted from 1 as editors do, and the rule in words.
pub fn tell_refused(rt: &HostRuntime, program: &[u8], rule: u8, at: usize) {
    tell(rt, program);
    tell(rt, b": refused ");
    let _ = rt.eprint(rule);
    if 18 <= rule {
        tell(rt, b" at text line ");
        let _ = rt.eprint(at.wrapping_add(1));
    }
    tell(rt, b": ");
    tell(rt, words_of(rule).as_bytes());
    tell(rt, b"\n");
}
