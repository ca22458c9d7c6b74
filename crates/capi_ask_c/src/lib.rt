// The functions of `capi_ask` as C and Rust call them: each calls the function of its name there, and promises the same.
#![tactic(auto)]

ghost use Rattle.std.specs.Prelude.{◌≡◌};
ghost use Rattle.judge.specs.Judge.{old_verdict, new_verdict};
ghost use Rattle.capi_ask.specs.Rows.{asked_row};

// Whether a run goes strictly to the old format of its pair, and the bytes that it needs there.
#[unsafe(no_mangle)]
pub extern "C" fn las_convert_ask_old(
    src: &[u8],
    format: u8,
    extra: u16,
    count: u64,
    row: &mut [u64; 3],
)
    ensures { row.new ≡ asked_row (old_verdict format extra count src.now) }
{
    capi_ask::las_convert_ask_old(src, format, extra, count, row)
}

// Whether a run goes up to the new format of its pair, and the bytes that it needs there.
#[unsafe(no_mangle)]
pub extern "C" fn las_convert_ask_new(
    src: &[u8],
    format: u8,
    extra: u16,
    count: u64,
    row: &mut [u64; 3],
)
    ensures { row.new ≡ asked_row (new_verdict format extra count src.now) }
{
    capi_ask::las_convert_ask_new(src, format, extra, count, row)
}
