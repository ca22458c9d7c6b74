// Strict conversion and upgrade of runs for C and Rust. The format is a code, as in a header; rows are those of the crate words,
// and a row's value is the count of bytes written.
#![tactic(auto)]

ghost use Rattle.std.specs.Prelude.{◌≡◌};
ghost use Rattle.convert.specs.Run.{to_old_of, to_new_of};
ghost use Rattle.capi_convert.specs.Rows.{converted_row, told_of};

use refusal::Refused;

// Converts a run strictly to the old format of its pair, at the front of dst.
pub fn las_convert_to_old(
    src: &[u8],
    format: u8,
    extra: u16,
    count: u64,
    dst: &mut [u8],
    row: &mut [u64; 3],
)
    ensures { (row.new, dst.new) ≡ told_of (to_old_of format extra count src.now dst.old) }
{
    tell(convert::to_old(src, format, extra, count, dst), row)
}

// Upgrades a run to the new format of its pair, at the front of dst.
pub fn las_convert_to_new(
    src: &[u8],
    format: u8,
    extra: u16,
    count: u64,
    dst: &mut [u8],
    row: &mut [u64; 3],
)
    ensures { (row.new, dst.new) ≡ told_of (to_new_of format extra count src.now dst.old) }
{
    tell(convert::to_new(src, format, extra, count, dst), row)
}

// The row of a conversion.
pub fn tell(converted: Result<usize, Refused>, row: &mut [u64; 3])
    ensures { row.new ≡ converted_row converted }
{
    match converted {
        Ok(n) => words::tell(row, 0, n as u64, 0),
        Err(refused) => words::refuse(row, refused.refusal, refused.record),
    }
}
