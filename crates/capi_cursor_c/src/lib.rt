// The functions of `capi_cursor` as C and Rust call them: each calls the function of its name there, and promises the same.
#![tactic(auto)]

ghost use Rattle.std.specs.Prelude.{◌≡◌};
ghost use Rattle.cursor.specs.Cursor.{started_of};
ghost use Rattle.capi_cursor.specs.Numbers.{started_row, stepped_row};

// The cursor at the first part of the file, after the file check, whose refusals leave the cursor.
#[unsafe(no_mangle)]
pub extern "C" fn las_cursor_start(
    file: &[u8],
    allowance: u64,
    numbers: &mut [u64; 10],
    row: &mut [u64; 3],
)
    ensures { (row.new, numbers.new) ≡ started_row numbers.old (started_of allowance file.now) }
{
    capi_cursor::las_cursor_start(file, allowance, numbers, row)
}

// Whether there is a part at the cursor: then the part, and the cursor after it; else both stay as they were.
#[unsafe(no_mangle)]
pub extern "C" fn las_cursor_next(file: &[u8], numbers: &mut [u64; 10], part: &mut [u64; 3]) -> bool
    ensures { (result, numbers.new, part.new) ≡ stepped_row file.now numbers.old part.old }
{
    capi_cursor::las_cursor_next(file, numbers, part)
}
