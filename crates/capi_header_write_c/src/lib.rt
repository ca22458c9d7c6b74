// The functions of `capi_header_write` as C and Rust call them: each calls the function of its name there, and promises the same.
#![tactic(auto)]

ghost use Rattle.std.specs.Prelude.{◌≡◌};
ghost use Rattle.header_write.specs.Wrote.{wrote_of};
ghost use Rattle.words.specs.Rows.{written_row};
ghost use Rattle.capi_header_write.specs.Numbers.{header_from};

// Writes the header of 51 numbers and three texts, and then its padding, to the front of dst; the row's value is the count
// of bytes.
#[unsafe(no_mangle)]
pub extern "C" fn las_header_write(
    numbers: &[u64; 51],
    guid: &[u8; 16],
    system: &[u8; 32],
    software: &[u8; 32],
    padding: &[u8],
    dst: &mut [u8],
    row: &mut [u64; 3],
)
    ensures { (row.new, dst.new) ≡ written_row (wrote_of (header_from numbers.now guid.now system.now software.now) padding.now dst.old) }
{
    capi_header_write::las_header_write(numbers, guid, system, software, padding, dst, row)
}
