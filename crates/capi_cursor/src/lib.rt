// The parts of a file one after the other, for C and Rust, without a table. A cursor crosses the boundary as ten numbers that the
// caller keeps: its stage (0 header, 1 VLRs, 2 points, 3 the gap after them, 4 the later records), its place, the records left of the
// stage, and its plan: the header's size, the number of VLRs, the first byte of the points and the one after them, the first byte of the
// later records and their number, and whether they are the waveform packets, which any number but 0 says. Of a number wider than its field
// the low bits count, and any stage above 4 is 4. A part is three numbers, its kind (0 header, 1 VLR, 2 gap, 3 points, 4 EVLR,
// 5 waveform), its first byte and its bytes. Rows are those of the crate words.
#![tactic(auto)]

ghost use Rattle.std.specs.Prelude.{◌≡◌, cond};
ghost use Rattle.cursor.specs.Cursor.{started_of};
ghost use Rattle.capi_cursor.specs.Numbers.{kind_number, part_numbers, stage_number, stage_from, cursor_numbers, cursor_from, started_row, stepped_row};

use cursor::{Cursor, Kind, Part, Plan, Stage};
use refusal::Refused;

// The cursor at the first part of the file, after the file check, whose refusals leave the cursor.
pub fn las_cursor_start(file: &[u8], allowance: u64, numbers: &mut [u64; 10], row: &mut [u64; 3])
    ensures { (row.new, numbers.new) ≡ started_row numbers.old (started_of allowance file.now) }
{
    match cursor::start(file, allowance) {
        Ok(c) => {
            *numbers = cursor_numbers(c);
            words::tell(row, 0, 0, 0)
        }
        Err(refused) => words::refuse(row, refused.refusal, refused.record),
    }
}

// Whether there is a part at the cursor: then the part, and the cursor after it; else both stay as they were.
pub fn las_cursor_next(file: &[u8], numbers: &mut [u64; 10], part: &mut [u64; 3]) -> bool
    ensures { (result, numbers.new, part.new) ≡ stepped_row file.now numbers.old part.old }
{
    let Some(step) = cursor::next(file, cursor_from(numbers)) else {
        return false;
    };
    let told = step.part;
    let next = step.next;
    *part = part_numbers(told);
    *numbers = cursor_numbers(next);
    true
}

// A part's numbers.
fn part_numbers(part: Part) -> [u64; 3]
    ensures { result ≡ part_numbers part }
{
    let kind = part.kind;
    [kind_number(kind), part.start, part.length]
}

// A kind's number.
pub fn kind_number(kind: Kind) -> u64
    ensures { result ≡ kind_number kind }
{
    match kind {
        Kind::Header => 0,
        Kind::Vlr => 1,
        Kind::Gap => 2,
        Kind::Points => 3,
        Kind::Evlr => 4,
        Kind::Waveform => 5,
    }
}

// A cursor's numbers.
fn cursor_numbers(c: Cursor) -> [u64; 10]
    ensures { result ≡ cursor_numbers c }
{
    let stage = c.stage;
    let plan = c.plan;
    [
        stage_number(stage),
        c.at,
        c.left as u64,
        plan.header_size,
        plan.number_of_vlrs as u64,
        plan.points,
        plan.end,
        plan.start_of_later_records,
        plan.number_of_later_records as u64,
        yes(plan.waveform),
    ]
}

// 1 for yes, 0 for no.
fn yes(is: bool) -> u64
    ensures { result ≡ cond is 1 0 }
{
    if is { 1 } else { 0 }
}

// A stage's number.
fn stage_number(stage: Stage) -> u64
    ensures { result ≡ stage_number stage }
{
    match stage {
        Stage::Header => 0,
        Stage::Vlrs => 1,
        Stage::Points => 2,
        Stage::Between => 3,
        Stage::Later => 4,
    }
}

// The cursor of ten numbers.
fn cursor_from(n: &[u64; 10]) -> Cursor
    ensures { result ≡ cursor_from n.now }
{
    Cursor {
        stage: stage_from(n[0]),
        at: n[1],
        left: (n[2] % 4294967296) as u32,
        plan: Plan {
            header_size: n[3],
            number_of_vlrs: (n[4] % 4294967296) as u32,
            points: n[5],
            end: n[6],
            waveform: n[9] != 0,
            start_of_later_records: n[7],
            number_of_later_records: (n[8] % 4294967296) as u32,
        },
    }
}

// The stage of a number.
fn stage_from(n: u64) -> Stage
    ensures { result ≡ stage_from n }
{
    if n == 0 {
        return Stage::Header;
    }
    if n == 1 {
        return Stage::Vlrs;
    }
    if n == 2 {
        return Stage::Points;
    }
    if n == 3 {
        return Stage::Between;
    }
    Stage::Later
}
