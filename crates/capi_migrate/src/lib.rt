// Whole files to the other version and back, for C and Rust: the question, without a destination, and the writing call, each way. Rows are
// those of the crate words, and a row's value is the count of bytes of the new file.
#![tactic(auto)]

ghost use Rattle.std.specs.Prelude.{◌≡◌, true, false};
ghost use Rattle.migrate.specs.Migrate.{file_verdict, migrated_of};
ghost use Rattle.capi_ask.specs.Rows.{asked_row};
ghost use Rattle.capi_convert.specs.Rows.{told_of};

// Whether a file of version 1.2 goes to 1.4, and the bytes that it has there.
#[unsafe(no_mangle)]
pub extern "C" fn las_file_ask_new(file: &[u8], allowance: u64, row: &mut [u64; 3])
    ensures { row.new ≡ asked_row (file_verdict true allowance file.now) }
{
    capi_ask::tell(migrate::ask_new(file, allowance), row)
}

// Whether a file of version 1.4 goes to 1.2, and the bytes that it has there.
#[unsafe(no_mangle)]
pub extern "C" fn las_file_ask_old(file: &[u8], allowance: u64, row: &mut [u64; 3])
    ensures { row.new ≡ asked_row (file_verdict false allowance file.now) }
{
    capi_ask::tell(migrate::ask_old(file, allowance), row)
}

// Writes a file of version 1.2 as one of 1.4, at the front of dst.
#[unsafe(no_mangle)]
pub extern "C" fn las_file_to_new(file: &[u8], allowance: u64, dst: &mut [u8], row: &mut [u64; 3])
    ensures { (row.new, dst.new) ≡ told_of (migrated_of true allowance file.now dst.old) }
{
    capi_convert::tell(migrate::to_new(file, allowance, dst), row)
}

// Writes a file of version 1.4 as one of 1.2, at the front of dst.
#[unsafe(no_mangle)]
pub extern "C" fn las_file_to_old(file: &[u8], allowance: u64, dst: &mut [u8], row: &mut [u64; 3])
    ensures { (row.new, dst.new) ≡ told_of (migrated_of false allowance file.now dst.old) }
{
    capi_convert::tell(migrate::to_old(file, allowance, dst), row)
}
