// Whole files for C and Rust: the file check, the parts, rewriting and the format of the points. A part crosses the boundary as the three numbers of the crate
// capi_cursor. Rows are those of the crate words.
#![tactic(auto)]

ghost use Rattle.std.specs.Prelude.{◌≡◌, ◌++◌, ◌*◌, ◌≤◌, length, drop};
ghost use Rattle.header.specs.Judged.{read_of};
ghost use Rattle.file.specs.Rules.{checked_of};
ghost use Rattle.cursor.specs.Cursor.{left_of};
ghost use Rattle.rewrite.specs.Rewritten.{rewritten_of};
ghost use Rattle.capi_file.specs.Rows.{checked_row, rewrote_row, format_row};
ghost use Rattle.capi_file.specs.Parts.{numbers_of, parts_row};

use cursor::Cursor;
use header::Header;
use outline::Outline;
use refusal::Refusal;

// Whether the file is accepted; the row is number, value, record number and the records found whole.
#[unsafe(no_mangle)]
pub extern "C" fn las_file_check(file: &[u8], allowance: u64, row: &mut [u64; 4])
    ensures { row.new ≡ checked_row (checked_of allowance file.now) }
{
    match file::check(file, allowance) {
        Ok(records) => *row = [0, 0, 0, records],
        Err(found) => {
            let told = found.refusal.row(found.record);
            *row = [told.number as u64, told.value, told.record, found.records];
        }
    }
}

// The parts of the file, three numbers each, to the front of the table; the row's value is how many parts there are. Refused with
// 22 and the parts wanted where the table has no three numbers for each; a refusal leaves the table.
#[unsafe(no_mangle)]
pub extern "C" fn las_file_parts(file: &[u8], allowance: u64, table: &mut [u64], row: &mut [u64; 3])
    ensures { (row.new, table.new) ≡ parts_row allowance file.now table.old }
{
    match cursor::start(file, allowance) {
        Ok(c) => {
            let wanted = parts::count(file, c);
            if table.len() / 3 < wanted {
                words::refuse(row, Refusal::NoRoom(wanted as u64), 0);
                return;
            }
            fill(file, c, table);
            words::tell(row, 0, wanted as u64, 0)
        }
        Err(refused) => words::refuse(row, refused.refusal, refused.record),
    }
}

// Rewrites the file to the front of dst; the row's value is the count of bytes, the file's length.
#[unsafe(no_mangle)]
pub extern "C" fn las_file_rewrite(file: &[u8], allowance: u64, dst: &mut [u8], row: &mut [u64; 3])
    ensures { (row.new, dst.new) ≡ rewrote_row (rewritten_of allowance file.now dst.old) }
{
    match rewrite::rewrite(file, allowance, dst) {
        Ok(n) => words::tell(row, 0, n as u64, 0),
        Err(refused) => words::refuse(row, refused.refusal, refused.record),
    }
}

// The format of the points, by the header at the front of s, as a format word.
#[unsafe(no_mangle)]
pub extern "C" fn las_header_point_format(s: &[u8], row: &mut [u64; 3])
    ensures { row.new ≡ format_row (read_of s.now) }
{
    match Header::read_from(s) {
        Ok(header) => {
            let format = file::point_format(Outline::of(header));
            words::tell(row, 0, words::format_word(format) as u64, 0)
        }
        Err(refusal) => words::refuse(row, refusal, 0),
    }
}

// The parts from the cursor on, three numbers each, one after the other.
fn fill(file: &[u8], c: Cursor, table: &mut [u64])
    requires { 3 * length (left_of file.now c) ≤ length table.old }
    ensures { table.new ≡ numbers_of (left_of file.now c) ++ drop (3 * length (left_of file.now c)) table.old }
{
    let mut at: usize = 0;
    let mut c = c;
    while let Some(step) = cursor::next(file, c) {
        let part = step.part;
        let kind = part.kind;
        table[at] = capi_cursor::kind_number(kind);
        table[at + 1] = part.start;
        table[at + 2] = part.length;
        at += 3;
        c = step.next;
    }
}
