// Calls Group on the records of records.dat and on records made here, and prints under a title what it answered, the entries or, where there are
// many, a checksum of them, and whether the rest of the result area is as it was. tests/group_jobs.py writes records.dat and what is to be printed.
#![tactic(auto)]

ghost use Rattle.std.specs.Prelude.{◌≤◌, ◌<◌};

use printing::BLANK;

// The bytes of 32,768 records, the most that there may be, and of one more.
type Records = [u8; 524304];

// Room for the entries of as many.
type Entries = [u8; 65538];

fn print_entries(rt: &impl Print, entries: &[u8]) {
    for entry in entries.chunks_exact(2) {
        let _ = print!(rt; " {}", basics::word_at(entry, 0));
    }
}

// The entries, or of more than a hundred their checksum.
fn print_some(rt: &impl Print, entries: &[u8]) {
    if entries.len() <= 200 {
        print_entries(rt, entries);
    } else {
        printing::text(rt, b" checksum ");
        printing::number(rt, printing::checksum(entries));
    }
}

fn print_done(rt: &impl Print, n: usize, res: &Entries) {
    printing::done(rt, n);
    if 32769 < n {
        printing::text(rt, b" TOO MANY\n");
        return;
    }
    let (entries, rest) = res.split_at(2 * n);
    print_some(rt, entries);
    printing::kept_or_changed(rt, printing::kept(rest, BLANK));
}

// The call with a result area of this size.
fn run(rt: &impl Print, title: &[u8], records: &[u8], size: usize)
    requires { size ≤ 65538 }
{
    let mut result = [BLANK; 65538];
    printing::text(rt, title);
    printing::text(rt, b": ");
    match group::group(records, &mut result[..size]) {
        Ok(n) => print_done(rt, n, &result),
        Err(refusal) => {
            printing::refused_job(rt, refusal.rule.number(), refusal.at, b"", &result);
        }
    }
}

// Record j, with verdict, time and line told by a key. Its position is m, differing and start, on which no group depends.
fn put_record(area: &mut Records, j: usize, key: usize)
    requires { j < 32769 }
{
    let at = 16 * j;
    record::put16(area, at, 1 + key % 7 + 256 * (j % 256));
    record::put16(area, at + 2, 259 * (key / 7 % 100));
    record::put16(area, at + 4, 300 * (key / 700));
    record::put16(area, at + 6, j);
    record::put16(area, at + 12, j);
}

// Records with so many keys, in turn.
fn fill(area: &mut Records, keys: usize)
    requires { 0 < keys }
{
    for j in 0..32769 {
        put_record(area, j, j % keys);
    }
}

// So many bytes of the records.
fn run_part(rt: &impl Print, title: &[u8], area: &Records, bytes: usize, size: usize)
    requires { (bytes ≤ 524304) × (size ≤ 65538) }
{
    run(rt, title, &area[..bytes], size);
}

// Few bytes and many, of records that have so many keys.
fn run_keys(rt: &impl Print, keys: usize)
    requires { 0 < keys }
{
    let mut area: Records = printing::zeros();
    fill(&mut area, keys);
    let _ = println!(rt; "{keys} keys");
    run_part(rt, b"one record", &area, 16, 2);
    run_part(rt, b"40 records", &area, 640, 65538);
    run_part(rt, b"32767 records", &area, 524272, 65538);
    run_part(rt, b"32768 records", &area, 524288, 65536);
}

// Areas that are refused, and the shortest.
fn run_edges(rt: &impl Print) {
    let area: Records = printing::zeros();
    run_part(rt, b"no record", &area, 0, 0);
    run_part(rt, b"a byte", &area, 1, 65538);
    run_part(rt, b"15 bytes", &area, 15, 65538);
    run_part(rt, b"17 bytes", &area, 17, 65538);
    run_part(rt, b"32769 records", &area, 524304, 65538);
    run_part(rt, b"32768 records and a byte", &area, 524289, 65538);
    run_part(rt, b"32769 records, no result area", &area, 524304, 0);
    run_part(rt, b"one record, a byte short", &area, 16, 1);
    run_part(rt, b"40 records, a byte short", &area, 640, 79);
    run_part(rt, b"32768 records, a byte short", &area, 524288, 65535);
}

fn main(rt: HostRuntime) {
    let mut records = [0u8; 4096];
    let size = printing::read(&rt, b"records.dat", &mut records);
    run(&rt, b"records.dat", &records[..size], 65538);
    run_edges(&rt);
    run_keys(&rt, 1);
    run_keys(&rt, 9);
    run_keys(&rt, 1000);
    run_keys(&rt, 32769);
}
