// The functions of `capi_point` as C and Rust call them: each calls the function of its name there, and promises the same.
#![tactic(auto)]

ghost use Rattle.std.specs.Prelude.{◌≡◌};
ghost use Rattle.words.specs.Words.{format_of_word};
ghost use Rattle.point.specs.Read.{read_of};
ghost use Rattle.point_write.specs.Write.{written_of};
ghost use Rattle.words.specs.Rows.{written_row};
ghost use Rattle.capi_point.specs.Numbers.{read_row, extra_part, point_from};

// The point in the first bytes of s, as 24 numbers; where it is refused they stay as they were.
#[unsafe(no_mangle)]
pub extern "C" fn las_point_read(s: &[u8], format: u32, row: &mut [u64; 3], numbers: &mut [u64; 24])
    ensures { (row.new, numbers.new) ≡ read_row numbers.old (read_of (format_of_word format) s.now) }
{
    capi_point::las_point_read(s, format, row, numbers)
}

// Where the point's extra bytes start in s, and how many there are; two zeros where there are none, as where the read is refused.
#[unsafe(no_mangle)]
pub extern "C" fn las_point_extra(s: &[u8], format: u32, part: &mut [u64; 2])
    ensures { part.new ≡ extra_part (format_of_word format) s.now }
{
    capi_point::las_point_extra(s, format, part)
}

// Writes the point of 24 numbers and its extra bytes to the front of dst; the row's value is the count of bytes.
#[unsafe(no_mangle)]
pub extern "C" fn las_point_write(
    numbers: &[u64; 24],
    extra: &[u8],
    format: u32,
    dst: &mut [u8],
    row: &mut [u64; 3],
)
    ensures { (row.new, dst.new) ≡ written_row (written_of (format_of_word format) (point_from numbers.now) extra.now dst.old) }
{
    capi_point::las_point_write(numbers, extra, format, dst, row)
}
