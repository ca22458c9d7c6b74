// The site sheet: one sheet for many files, each added to it by itself. Added by document 02, No. 9.
#![tactic(auto)]

ghost use Rattle.std.specs.Prelude.{◌≡◌, true, length};
ghost use Rattle.sheet.specs.Sheet.{empty_sheet, fits_in, all_fit, totals_fit, sums, both_bounds, added_to, added_of};

use refusal::{Refusal, Refused};
use sheet_count::{Extent, Tally};

// How many files and points there are, the smallest and largest X, Y and Z as stored, whatever the files' scales, and the points of each
// class and of each return number, 0 too.
#[derive(Clone, Copy)]
pub struct Sheet {
    pub files: u64,
    pub points: u64,
    pub bounds: Option<Extent>,
    pub classes: [u64; 256],
    pub returns: [u64; 16],
}

// The sheet of no files.
pub fn empty() -> Sheet
    ensures { result ≡ empty_sheet }
{
    Sheet {
        files: 0,
        points: 0,
        bounds: None,
        classes: [0; 256],
        returns: [0; 16],
    }
}

// Adds one file more to the sheet, counted from its records. Refused with the file check's refusal, then 50 where a total would be
// over 2^64 - 1; a refused file leaves the sheet as it was.
pub fn add(sheet: &mut Sheet, file: &[u8], allowance: u64) -> Result<(), Refused>
    ensures { (result, sheet.new) ≡ added_of allowance sheet.old file.now }
{
    let tally = sheet_count::count(file, allowance)?;
    add_tally(sheet, tally)
}

// The same with the counts of an accepted file: every total is tested before one is added.
fn add_tally(sheet: &mut Sheet, tally: Tally) -> Result<(), Refused>
    ensures { (result, sheet.new) ≡ added_to sheet.old tally }
{
    if !totals_fit(sheet, &tally) {
        return Err(Refusal::TotalTooLarge.into());
    }
    sheet.files += 1;
    sheet.points += tally.points;
    sheet.bounds = both_bounds(sheet.bounds, tally.bounds);
    add_all(&mut sheet.classes, &tally.classes);
    add_all(&mut sheet.returns, &tally.returns);
    Ok(())
}

// Whether no total goes over 2^64 - 1, each tested by itself.
fn totals_fit(sheet: &Sheet, tally: &Tally) -> bool
    ensures { result ≡ totals_fit sheet.now tally.now }
{
    fits(sheet.files, 1)
        && fits(sheet.points, tally.points)
        && all_fit(&sheet.classes, &tally.classes)
        && all_fit(&sheet.returns, &tally.returns)
}

// The bounds of both; of no points there are none.
fn both_bounds(a: Option<Extent>, b: Option<Extent>) -> Option<Extent>
    ensures { result ≡ both_bounds a b }
{
    let Some(x) = a else {
        return b;
    };
    let Some(y) = b else {
        return a;
    };
    Some(sheet_count::both_extents(x, y))
}

// Whether a sum is at most 2^64 - 1.
fn fits(a: u64, b: u64) -> bool
    ensures { result ≡ fits_in a b }
{
    b <= u64::MAX - a
}

// Whether each number of a and the one of b at its place have such a sum.
fn all_fit(a: &[u64], b: &[u64]) -> bool
    ensures { result ≡ all_fit a.now b.now }
{
    a.iter().zip(b).all(|(total, more)| fits(*total, *more))
}

// Adds each number of b to the one of a at its place.
fn add_all(a: &mut [u64], b: &[u64])
    requires { (length a.old ≡ length b.now) × (all_fit a.old b.now ≡ true) }
    ensures { a.new ≡ sums a.old b.now }
{
    // Stays: a write by index, since of what is written over `a.iter_mut().zip(b)` a proof knows nothing.
    for (i, more) in b.iter().enumerate() {
        a[i] += *more;
    }
}
