// The part table: document 01, "a lent table of part entries (kind, start, length)".
#![tactic(auto)]

ghost use Rattle.std.specs.Prelude.{◌≡◌, length};
ghost use Rattle.cursor.specs.Cursor.{left_of};
ghost use Rattle.parts.specs.Table.{roomy_of, tabled_of};

use cursor::{Cursor, Part};
use refusal::{Refusal, Refused};

// Fills the table with the parts of the file in file order, and leaves the entries past the last as they were. Refuses what the
// file check refuses, then with 22 and the entries wanted where the table has too few; a refusal changes nothing.
pub fn parts(file: &[u8], allowance: u64, table: &mut [Part]) -> Result<usize, Refused>
    ensures { (result, table.new) ≡ tabled_of allowance file.now table.old }
{
    let mut c = start(file, allowance, table.len())?;
    let mut i: usize = 0;
    while let Some(step) = cursor::next(file, c) {
        table[i] = step.part;
        c = step.next;
        i += 1;
    }
    Ok(i)
}

// The cursor at the first part, where a table of `room` entries holds them all.
fn start(file: &[u8], allowance: u64, room: usize) -> Result<Cursor, Refused>
    ensures { result ≡ roomy_of allowance file.now room }
{
    let c = cursor::start(file, allowance)?;
    let wanted = count(file, c);
    if room < wanted {
        return Err(Refusal::NoRoom(wanted as u64).into());
    }
    Ok(c)
}

// How many parts there are from the cursor on.
pub fn count(file: &[u8], c: Cursor) -> usize
    ensures { result ≡ length (left_of file.now c) }
{
    let mut n: usize = 0;
    let mut c = c;
    while let Some(step) = cursor::next(file, c) {
        n += 1;
        c = step.next;
    }
    n
}
