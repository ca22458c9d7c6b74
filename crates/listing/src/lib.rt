// The parts program's work: document 01, "The parts program reads standard input". What is printed is outside the logic, so
// these functions promise only that they are safe and end; the numbers printed are those that the part table and the file
// check promise.
#![tactic(auto)]

use cursor::{Kind, Part};
use refusal::{Refused, Row};
use std::io;

// As many bytes as are judged.
const BYTES: usize = 65536;

// More records than 65,536 bytes hold, so that no file is refused for it.
const ALLOWANCE: u64 = 1300;

// As many parts as that many records, and what stands around them, can make.
const ENTRIES: usize = 1310;

// Lists the first 65,536 bytes of standard input.
pub fn run(rt: &HostRuntime) -> io::Result<()> {
    let mut file = [0u8; BYTES];
    let n = input::read_full(rt, &mut file)?;
    list(rt, &file[..n])
}

// Prints the parts of a file under their heading, or its refusal: the table is made here, and lent to be filled.
pub fn list(rt: &HostRuntime, file: &[u8]) -> io::Result<()> {
    let unfilled = unfilled();
    let mut table = [unfilled; ENTRIES];
    let tabled = parts::parts(file, ALLOWANCE, &mut table);
    print_table(rt, tabled, &table)
}

// What an entry of the table holds before it is filled.
fn unfilled() -> Part {
    Part {
        kind: Kind::Gap,
        start: 0,
        length: 0,
    }
}

// Prints as many entries as were filled, or the refusal.
fn print_table(
    rt: &HostRuntime,
    tabled: Result<usize, Refused>,
    table: &[Part; ENTRIES],
) -> io::Result<()> {
    match tabled {
        Ok(n) => print_entries(rt, table, n),
        Err(Refused { refusal, record }) => print_refused(rt, refusal.row(record)),
    }
}

// A line for each of the first n entries; ends early where nothing more can be written.
fn print_entries(rt: &HostRuntime, table: &[Part; ENTRIES], n: usize) -> io::Result<()> {
    println!(rt; "kind start length")?;
    for part in table.iter().take(n) {
        print_part(rt, *part)?;
    }
    Ok(())
}

// Prints a part's line.
fn print_part(rt: &HostRuntime, part: Part) -> io::Result<()> {
    let kind = name(part.kind);
    let start = part.start;
    let length = part.length;
    println!(rt; "{kind} {start} {length}")
}

// The word for a kind of part.
fn name(kind: Kind) -> &'static str {
    match kind {
        Kind::Header => "header",
        Kind::Vlr => "vlr",
        Kind::Gap => "gap",
        Kind::Points => "points",
        Kind::Evlr => "evlr",
        Kind::Waveform => "waveform",
    }
}

// The line of a refusal: number, value and record number.
fn print_refused(rt: &HostRuntime, row: Row) -> io::Result<()> {
    let number = row.number;
    let value = row.value;
    let record = row.record;
    println!(rt; "refused {number} {value} {record}")
}
