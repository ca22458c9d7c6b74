// One point's class for C and Rust: set in a lent file; and asked about, for whoever writes the one byte to a device himself. Rows are those
// of the crate words, and a row's value is the class that the point had.
#![tactic(auto)]

ghost use Rattle.std.specs.Prelude.{◌≡◌};
ghost use Rattle.reclassify.specs.Reclassify.{asked_of, reclassified_of};
ghost use Rattle.capi_reclassify.specs.Rows.{asked_row, reclassified_row};

use refusal::Refused;

// Gives this class to the point of this number, the first being 1, in the file.
#[unsafe(no_mangle)]
pub extern "C" fn las_reclassify(
    file: &mut [u8],
    allowance: u64,
    point: u64,
    class: u8,
    row: &mut [u64; 3],
)
    ensures { (row.new, file.new) ≡ reclassified_row (reclassified_of allowance point class file.old) }
{
    match reclassify::reclassify(file, allowance, point, class) {
        Ok(was) => words::tell(row, 0, was as u64, 0),
        Err(refused) => words::refuse(row, refused.refusal, refused.record),
    }
}

// Which byte of the file gives this class to the point of this number, and what it becomes; nothing of the file is written. A refusal
// leaves the change.
#[unsafe(no_mangle)]
pub extern "C" fn las_reclassify_ask(
    file: &[u8],
    allowance: u64,
    point: u64,
    class: u8,
    change: &mut [u64; 2],
    row: &mut [u64; 3],
)
    ensures { (row.new, change.new) ≡ asked_row (asked_of allowance point class file.now) change.old }
{
    match reclassify::ask(file, allowance, point, class) {
        Ok(c) => {
            *change = [c.at, c.byte as u64];
            words::tell(row, 0, c.class as u64, 0)
        }
        Err(refused) => words::refuse(row, refused.refusal, refused.record),
    }
}
