// The site sheet for C and Rust: a file added to a sheet of numbers that the caller keeps. Rows are those of the crate words.
#![tactic(auto)]

ghost use Rattle.std.specs.Prelude.{◌≡◌, ◌≤◌, length};
ghost use Rattle.std.specs.Int.{w32};
ghost use Rattle.std.proofs.Common.{of_z};
ghost use Rattle.sheet.specs.Sheet.{added_of};
ghost use Rattle.capi_sheet.specs.Numbers.{range_from, bounds_from, part_from, sheet_from, head_numbers, sheet_numbers, added_row};

use sheet::Sheet;
use sheet_count::{Extent, Range};

// Adds a file to the sheet; a refused one leaves it.
#[unsafe(no_mangle)]
pub extern "C" fn las_sheet_add(
    file: &[u8],
    allowance: u64,
    sheet: &mut [u64; 281],
    row: &mut [u64; 3],
)
    ensures { (row.new, sheet.new) ≡ added_row (added_of allowance (sheet_from sheet.old) file.now) sheet.old }
{
    let mut after = sheet_from(sheet);
    match sheet::add(&mut after, file, allowance) {
        Ok(()) => {
            *sheet = sheet_numbers(after);
            words::tell(row, 0, 0, 0)
        }
        Err(refused) => words::refuse(row, refused.refusal, refused.record),
    }
}

// The sheet of its numbers.
fn sheet_from(n: &[u64; 281]) -> Sheet
    ensures { result ≡ sheet_from n.now }
{
    Sheet {
        files: n[0],
        points: n[1],
        bounds: bounds_from(n),
        classes: classes_from(n),
        returns: returns_from(n),
    }
}

// Its bounds, where it has some.
fn bounds_from(n: &[u64]) -> Option<Extent>
    ensures { result ≡ bounds_from n.now }
{
    if words::nth(n, 2) == 0 {
        return None;
    }
    Some(Extent {
        x: range_from(n, 3),
        y: range_from(n, 5),
        z: range_from(n, 7),
    })
}

// The smallest number at place k, and the largest after it.
fn range_from(n: &[u64], k: usize) -> Range
    requires { k ≤ 7 }
    ensures { result ≡ range_from k n.now }
{
    Range {
        min: words::low32(n, k).cast_signed(),
        max: words::low32(n, k + 1).cast_signed(),
    }
}

// Its counts by class and by return number.

fn classes_from(n: &[u64]) -> [u64; 256]
    requires { length n.now ≡ 281 }
    ensures { result ≡ part_from 9 256 n.now }
{
    let mut classes = [0u64; 256];
    classes.copy_from_slice(&n[9..265]);
    classes
}

fn returns_from(n: &[u64]) -> [u64; 16]
    requires { length n.now ≡ 281 }
    ensures { result ≡ part_from 265 16 n.now }
{
    let mut returns = [0u64; 16];
    returns.copy_from_slice(&n[265..281]);
    returns
}

// The numbers of a sheet.
fn sheet_numbers(sheet: Sheet) -> [u64; 281]
    ensures { result ≡ sheet_numbers sheet }
{
    let mut numbers = [0; 281];
    numbers[..9].copy_from_slice(&head_numbers(sheet.files, sheet.points, sheet.bounds));
    numbers[9..265].copy_from_slice(&sheet.classes);
    numbers[265..].copy_from_slice(&sheet.returns);
    numbers
}

// Those before its counts.
fn head_numbers(files: u64, points: u64, bounds: Option<Extent>) -> [u64; 9]
    ensures { result ≡ head_numbers files points bounds }
{
    match bounds {
        None => [files, points, 0, 0, 0, 0, 0, 0, 0],
        Some(e) => [
            files,
            points,
            1,
            bits(e.x.min),
            bits(e.x.max),
            bits(e.y.min),
            bits(e.y.max),
            bits(e.z.min),
            bits(e.z.max),
        ],
    }
}

// A stored number as its 32 bits.
fn bits(z: i32) -> u64
    ensures { result ≡ of_z w32 z }
{
    z.cast_unsigned() as u64
}
