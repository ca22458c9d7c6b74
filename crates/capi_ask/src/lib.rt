// Whether a run can be converted, for C and Rust: document 02's question before converting, without a destination. The format is a code,
// as in a header; rows are those of the crate words, and a row's value is the count of bytes that the converted run needs. The questions
// are a library of their own, so that in that of the conversions the judge is called in one place each way.
#![tactic(auto)]

ghost use Rattle.std.specs.Prelude.{◌≡◌};
ghost use Rattle.judge.specs.Judge.{old_verdict, new_verdict};
ghost use Rattle.capi_ask.specs.Rows.{asked_row};

use judge::Run;
use refusal::Refused;

// Whether a run goes strictly to the old format of its pair, and the bytes that it needs there.
pub fn las_convert_ask_old(src: &[u8], format: u8, extra: u16, count: u64, row: &mut [u64; 3])
    ensures { row.new ≡ asked_row (old_verdict format extra count src.now) }
{
    tell(judge::ask_old(src, format, extra, count), row)
}

// Whether a run goes up to the new format of its pair, and the bytes that it needs there.
pub fn las_convert_ask_new(src: &[u8], format: u8, extra: u16, count: u64, row: &mut [u64; 3])
    ensures { row.new ≡ asked_row (new_verdict format extra count src.now) }
{
    tell(judge::ask_new(src, format, extra, count), row)
}

// The row of a verdict.
pub fn tell(verdict: Result<Run, Refused>, row: &mut [u64; 3])
    ensures { row.new ≡ asked_row verdict }
{
    match verdict {
        Ok(run) => words::tell(row, 0, run.bytes as u64, 0),
        Err(refused) => words::refuse(row, refused.refusal, refused.record),
    }
}
