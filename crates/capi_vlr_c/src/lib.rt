// The functions of `capi_vlr` as C and Rust call them: each calls the function of its name there, and promises the same.
#![tactic(auto)]

ghost use Rattle.std.specs.Prelude.{◌≡◌};
ghost use Rattle.vlr.specs.Layout.{head_size};
ghost use Rattle.vlr.specs.Vlr.{stated_of, extent_of, no_vlr, read_of};
ghost use Rattle.capi_vlr.specs.Rows.{lent_of, read_row, extent_row, stated_row, data_part, write_row};

// The head of the record at the start of s; the row's value is the bytes of the record, head and data. Where it is refused
// the numbers, the user id and the description stay as they were.
#[unsafe(no_mangle)]
pub extern "C" fn las_vlr_read(
    s: &[u8],
    extended: bool,
    row: &mut [u64; 3],
    numbers: &mut [u64; 3],
    user_id: &mut [u8; 16],
    description: &mut [u8; 32],
)
    ensures { (row.new, numbers.new, user_id.new, description.new) ≡ read_row (extent_of extended s.now) (read_of extended s.now) numbers.old user_id.old description.old }
{
    capi_vlr::las_vlr_read(s, extended, row, numbers, user_id, description)
}

// Where the record's data starts in s, and how many bytes it has; two zeros where there is none, as where the read is refused.
#[unsafe(no_mangle)]
pub extern "C" fn las_vlr_data(s: &[u8], extended: bool, part: &mut [u64; 2])
    ensures { part.new ≡ data_part extended s.now }
{
    capi_vlr::las_vlr_data(s, extended, part)
}

// Writes the record and its data to the front of dst; the row's value is the count of bytes. A VLR's stated length that has more
// than 16 bits is refused with 24, as is one that the data has not.
#[unsafe(no_mangle)]
pub extern "C" fn las_vlr_write(
    extended: bool,
    numbers: &[u64; 3],
    user_id: &[u8; 16],
    description: &[u8; 32],
    data: &[u8],
    dst: &mut [u8],
    row: &mut [u64; 3],
)
    ensures { (row.new, dst.new) ≡ write_row extended numbers.now user_id.now description.now «data».now dst.old }
{
    capi_vlr::las_vlr_write(extended, numbers, user_id, description, data, dst, row)
}

// How many bytes the record at the start of s takes, head and data, without reading the rest of its head.
#[unsafe(no_mangle)]
pub extern "C" fn las_vlr_measure(s: &[u8], extended: bool, row: &mut [u64; 3])
    ensures { row.new ≡ extent_row (extent_of extended s.now) }
{
    capi_vlr::las_vlr_measure(s, extended, row)
}

// The bytes of a head.
#[unsafe(no_mangle)]
pub extern "C" fn las_vlr_head_size(extended: bool) -> u64
    ensures { result ≡ head_size extended }
{
    capi_vlr::las_vlr_head_size(extended)
}

// The length that the head at the start of s states; refused with 1 where the head is not all there.
#[unsafe(no_mangle)]
pub extern "C" fn las_vlr_stated(s: &[u8], extended: bool, row: &mut [u64; 3])
    ensures { row.new ≡ stated_row (stated_of extended s.now) }
{
    capi_vlr::las_vlr_stated(s, extended, row)
}

// The Rust's default record.
#[unsafe(no_mangle)]
pub extern "C" fn las_vlr_default(
    numbers: &mut [u64; 3],
    user_id: &mut [u8; 16],
    description: &mut [u8; 32],
)
    ensures { (numbers.new, user_id.new, description.new) ≡ lent_of no_vlr }
{
    capi_vlr::las_vlr_default(numbers, user_id, description)
}
