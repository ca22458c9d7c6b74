// The functions of `capi_convert` as C and Rust call them: each calls the function of its name there, and promises the same.
#![tactic(auto)]

ghost use Rattle.std.specs.Prelude.{◌≡◌};
ghost use Rattle.convert.specs.Run.{to_old_of, to_new_of};
ghost use Rattle.capi_convert.specs.Rows.{told_of};

// Converts a run strictly to the old format of its pair, at the front of dst.
#[unsafe(no_mangle)]
pub extern "C" fn las_convert_to_old(
    src: &[u8],
    format: u8,
    extra: u16,
    count: u64,
    dst: &mut [u8],
    row: &mut [u64; 3],
)
    ensures { (row.new, dst.new) ≡ told_of (to_old_of format extra count src.now dst.old) }
{
    capi_convert::las_convert_to_old(src, format, extra, count, dst, row)
}

// Upgrades a run to the new format of its pair, at the front of dst.
#[unsafe(no_mangle)]
pub extern "C" fn las_convert_to_new(
    src: &[u8],
    format: u8,
    extra: u16,
    count: u64,
    dst: &mut [u8],
    row: &mut [u64; 3],
)
    ensures { (row.new, dst.new) ≡ told_of (to_new_of format extra count src.now dst.old) }
{
    capi_convert::las_convert_to_new(src, format, extra, count, dst, row)
}
