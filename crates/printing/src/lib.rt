// What a program needs around the calls: text, numbers, values and areas on standard output, what is wrong on standard error, a file read into
// an area, an argument, and a look at an area that is to have kept the byte it was made of, as `[BLANK; 2048]` is. What is printed is tested, not
// proved. What cannot be printed is let go, but for what `deliver` is given.
#![tactic(auto)]

ghost use Rattle.std.specs.Prelude.{◌≡◌, true, ◌+◌, ◌<◌, ◌≤◌, length, IfOk};
ghost use Rattle.printing.specs.Only.{Only};
ghost use Rattle.printing.specs.Prefix.{IsPrefixLen};
ghost use Rattle.printing.specs.Read.{size_of};

use rules::Refusal;
use std::env::FillError;
use std::fmt::InlineText;
use std::io::{ErrorKind, Read};
use std::rt::{Env, Files};
use std::{fmt, fs, io};

// The byte that a test program makes its areas of before a call.
pub const BLANK: u8 = 165;

// Zeros, as many. The `ensures` gives only the length, which lending a long array as a slice needs.
pub fn zeros<const N: usize>() -> [u8; N]
    ensures { N ≡ length result }
{
    [0; N]
}

// Bytes as they are: on standard output, or on standard error where that is what is lent.
pub fn text(out: &impl Print, bytes: &[u8]) {
    let _ = out.write_all(bytes);
}

// Bytes that are all a program has to write; where they cannot be written, standard error says so.
pub fn deliver(rt: &HostRuntime, bytes: &[u8], failure: &[u8]) {
    if rt.write_all(bytes).is_err() {
        tell(rt, failure);
    }
}

// Bytes as they are, on standard error.
pub fn tell(rt: &HostRuntime, bytes: &[u8]) {
    text(&rt.stderr(), bytes);
}

// A number, in decimal.
pub fn number(out: &impl Print, n: usize) {
    let _ = out.print(n);
}

// Numbers, with a space between two of them.
#[derive(Drop)]
struct Spaced<'a>(&'a [usize]);

impl fmt::Display for Spaced<'_> {
    fn fmt<W: fmt::Write>(&self, f: &mut fmt::Formatter<W>) -> fmt::Result {
        for (i, n) in self.0.iter().enumerate() {
            if 0 < i {
                f.write_str(" ")?;
            }
            write!(f, "{n}")?;
        }
        Ok(())
    }
}

// The same, printed.
pub fn numbers(out: &impl Print, list: &[usize]) {
    let _ = out.print(Spaced(list));
}

// The same, and the end of the line.
pub fn row(out: &impl Print, list: &[usize]) {
    let _ = out.println(Spaced(list));
}

// The number that an accepted call answered.
pub fn done(out: &impl Print, n: usize) {
    let _ = print!(out; "done {n}");
}

// The number and the position by which a call refused.
pub fn refused(out: &impl Print, rule: u8, at: usize) {
    let _ = print!(out; "refused {rule} {at}");
}

// What a call answered.
pub fn outcome(out: &impl Print, outcome: Result<usize, Refusal>) {
    match outcome {
        Ok(n) => done(out, n),
        Err(Refusal { rule, at }) => refused(out, rule.number(), at),
    }
}

// Values, with nothing between them: 0, 1, or x for 2.
#[derive(Drop)]
struct Joined<'a>(&'a [u8]);

impl fmt::Display for Joined<'_> {
    fn fmt<W: fmt::Write>(&self, f: &mut fmt::Formatter<W>) -> fmt::Result {
        for value in self.0 {
            f.write_str(match value {
                0 => "0",
                1 => "1",
                2 => "x",
                _ => "?",
            })?;
        }
        Ok(())
    }
}

// The same, printed.
pub fn values(out: &impl Print, list: &[u8]) {
    let _ = out.print(Joined(list));
}

// Digits that are written at once.
type Digits = [u8; 4096];

// The digit of a number below 16.
fn digit(n: u8) -> u8
    requires { n < 16 }
{
    if n < 10 { b'0' + n } else { b'a' - 10 + n }
}

// A byte's two digits, put here; where the next stand.
fn put_byte(digits: &mut Digits, at: usize, byte: u8) -> usize
    requires { at + 2 ≤ 4096 }
    ensures { result ≡ at + 2 }
{
    digits[at] = digit(byte / 16);
    digits[at + 1] = digit(byte % 16);
    at + 2
}

// The end of a line, where there is one.
fn put_end(digits: &mut Digits, at: usize, ends: bool) -> usize
    requires { at < 4096 }
    ensures { result ≤ at + 1 }
{
    if ends {
        digits[at] = b'\n';
        return at + 1;
    }
    at
}

fn write_digits(out: &impl Print, digits: &Digits, size: usize)
    requires { size ≤ 4096 }
{
    text(out, &digits[..size]);
}

// Writes the digits where there is no room for more; where the next stand.
fn emptied(out: &impl Print, digits: &Digits, at: usize) -> usize
    requires { at ≤ 4096 }
    ensures { result ≤ 4093 }
{
    if 4093 < at {
        write_digits(out, digits, at);
        return 0;
    }
    at
}

// Bytes in hexadecimal, so many a line, with the end of a line between two of them. The digits are put into an array that is written whole: by
// `Display`, a byte at a time, a long area takes up to seven times as long (docs/DESIGN-PASS.md, Speed).
pub fn hex(out: &impl Print, bytes: &[u8], width: usize)
    requires { 0 < width }
{
    let mut digits = [0u8; 4096];
    let mut at: usize = 0;
    for (i, line) in bytes.chunks(width).enumerate() {
        at = emptied(out, &digits, at);
        at = put_end(&mut digits, at, 0 < i);
        for byte in line {
            at = emptied(out, &digits, at);
            at = put_byte(&mut digits, at, *byte);
        }
    }
    write_digits(out, &digits, at);
}

// A number of an area that is too long to print: any one byte that is changed, and nearly any two that change places, give another.
pub fn checksum(bytes: &[u8]) -> usize {
    let mut sum: usize = 1;
    for byte in bytes {
        sum = (257 * sum + usize::from(*byte)) % 1000000007;
    }
    sum
}

// A 32-bit number, low byte first.
pub fn long_at(bytes: &[u8], i: usize) -> usize
    requires { i + 4 ≤ length bytes.now }
    ensures { result < 4294967296 }
{
    u32::from_le_bytes([bytes[i], bytes[i + 1], bytes[i + 2], bytes[i + 3]]) as usize
}

// Whether the program is given so many arguments; its name is argument 0.
pub fn has_argument(rt: &impl Env, i: usize) -> bool {
    !matches!(rt.arg(i, &mut []), Err(FillError::NotPresent))
}

// Puts the argument's bytes at the start of the area; how many, or none where there is no such argument or it is longer than the area.
pub fn argument(rt: &impl Env, i: usize, area: &mut [u8]) -> Result<usize, FillError>
    ensures { IfOk result (λ n. IsPrefixLen n area.new) }
{
    let size = rt.arg(i, area)?;
    Ok(size)
}

// The system's words of an error, without its number.
fn reason(words: &str) -> &str {
    match words.split_once(" (os error ") {
        Some((before, _)) => before,
        None => words,
    }
}

// A line on standard error: what failed, and why in the system's words.
pub fn tell_error(rt: &HostRuntime, what: &[u8], error: &io::Error) {
    let words = InlineText::<256>::of(*error);
    let reason = reason(words.as_str());
    tell(rt, what);
    tell(rt, b": ");
    tell(rt, reason.as_bytes());
    tell(rt, b"\n");
}

// Puts what the file gives at the start of the area, until the area is full, the file ends or a read fails; how many bytes.
fn fill(file: &mut impl Read, area: &mut [u8]) -> usize
    ensures { IsPrefixLen result area.new }
{
    let mut done: usize = 0;
    // A read gives what there is: no range counts it.
    while done < area.len() {
        let got = file.read(&mut area[done..]).unwrap_or(0);
        if got == 0 {
            break;
        }
        done += got;
    }
    done
}

// The file of this name. The system's library takes text for a path, so a name that is no text names no file.
fn open<R: Files>(rt: &R, name: &[u8]) -> io::Result<R::File> {
    match std::str::from_utf8(name) {
        Ok(name) => fs::open(rt, name),
        Err(_) => Err(io::Error::from(ErrorKind::InvalidInput)),
    }
}

// Puts the file's bytes at the start of the area, as many as there is room for; how many. A file that cannot be opened has none, and is
// named on standard error with the reason.
pub fn read(rt: &HostRuntime, name: &[u8], area: &mut [u8]) -> usize
    ensures { IsPrefixLen result area.new }
{
    match open(rt, name) {
        Ok(mut file) => fill(&mut file, area),
        Err(e) => {
            tell_error(rt, name, &e);
            0
        }
    }
}

// What was read of a file, with how many bytes.
#[derive(Clone, Copy)]
pub enum Input {
    // There is no such file.
    Missing,
    // All of it.
    Whole(usize),
    // As much as there is room for, and there is more behind it.
    Longer(usize),
    // No further, as standard error says; `more` where a last look found a byte more all the same.
    Broken { size: usize, more: bool },
}

// A file that was not opened: there is none, or standard error says why not.
fn unopened(rt: &HostRuntime, name: &[u8], error: &io::Error) -> Input
    ensures { size_of result ≡ 0 }
{
    if error.kind() == ErrorKind::NotFound {
        return Input::Missing;
    }
    tell_error(rt, name, error);
    Input::Broken {
        size: 0,
        more: false,
    }
}

// What the read of one byte more tells, where so many bytes were read, and whether the area was full of them. A file that was not read as far as
// it should be is named on standard error.
fn input_of(
    rt: &HostRuntime,
    name: &[u8],
    next: io::Result<usize>,
    size: usize,
    full: bool,
) -> Input
    ensures { size_of result ≡ size }
{
    match next {
        Ok(0) => Input::Whole(size),
        Ok(_) if full => Input::Longer(size),
        Ok(_) => {
            tell(rt, name);
            tell(rt, b": not read to its end\n");
            Input::Broken { size, more: true }
        }
        Err(e) => {
            tell_error(rt, name, &e);
            Input::Broken { size, more: false }
        }
    }
}

// Puts the bytes of an open file at the start of the area, as many as there is room for, and looks for one more.
fn read_open(rt: &HostRuntime, name: &[u8], file: &mut impl Read, area: &mut [u8]) -> Input
    ensures { IsPrefixLen (size_of result) area.new }
{
    let size = fill(file, area);
    let next = file.read(&mut [0u8; 1]);
    input_of(rt, name, next, size, size == area.len())
}

// Puts the file's bytes at the start of the area, as many as there is room for, and looks for one more. A missing file is empty; one that
// is there and cannot be read is named on standard error with the reason.
pub fn read_file(rt: &HostRuntime, name: &[u8], area: &mut [u8]) -> Input
    ensures { IsPrefixLen (size_of result) area.new }
{
    match open(rt, name) {
        Ok(mut file) => read_open(rt, name, &mut file, area),
        Err(e) => unopened(rt, name, &e),
    }
}

// Whether every byte of the area is this one.
pub fn kept(area: &[u8], byte: u8) -> bool
    ensures { (result ≡ true → Only byte area.now) × (Only byte area.now → result ≡ true) }
{
    area.iter().all(|x| *x == byte)
}

// The end of a job's line: whether the bytes that must stay have stayed.
pub fn kept_or_changed(out: &impl Print, same: bool) {
    let _ = out.println(if same { " kept" } else { " CHANGED" });
}

// The line of a refused job, which must leave every byte of both areas.
pub fn refused_job(out: &impl Print, rule: u8, at: usize, work: &[u8], res: &[u8]) {
    refused(out, rule, at);
    kept_or_changed(out, kept(work, BLANK) && kept(res, BLANK));
}

// Runs the jobs that stand one behind the other. `run` takes what begins with a job and answers what is behind the job, or none where the job is
// cut off, which is then said.
pub fn run_jobs<F: Fn(&[u8]) -> Option<&[u8]>>(out: &impl Print, jobs: &[u8], run: F)
    requires callable { F.IsAlwaysCallable run }
    requires shorter { (job : _) (rest : _) → 0 < length job.now → F.post run job (Some rest) → length rest.now < length job.now }
{
    let mut rest = jobs;
    // Each job tells where the next begins.
    while !rest.is_empty() {
        match run(rest) {
            Some(next) => rest = next,
            None => {
                let _ = out.println("the last job is cut off");
                return;
            }
        }
    }
}
