// The findings of a file for C and Rust. Rows are those of the crate words, and a row's value is how many findings there are.
#![tactic(auto)]

ghost use Rattle.std.specs.Prelude.{◌≡◌};
ghost use Rattle.findings.specs.Answer.{findings_of};
ghost use Rattle.capi_findings.specs.Rows.{findings_row};

// Every finding of the file, four numbers each, at the front of out.
#[unsafe(no_mangle)]
pub extern "C" fn las_findings(file: &[u8], allowance: u64, out: &mut [u64], row: &mut [u64; 3])
    ensures { (row.new, out.new) ≡ findings_row (findings_of allowance file.now out.old) }
{
    match findings::findings(file, allowance, out) {
        Ok(n) => words::tell(row, 0, n, 0),
        Err(refused) => words::refuse(row, refused.refusal, refused.record),
    }
}
