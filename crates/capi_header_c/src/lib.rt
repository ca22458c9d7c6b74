// The functions of `capi_header` as C and Rust call them: each calls the function of its name there, and promises the same.
#![tactic(auto)]

ghost use Rattle.std.specs.Prelude.{◌≡◌};
ghost use Rattle.header.specs.Header.{default_header};
ghost use Rattle.header.specs.Judged.{standard_of, judged, read_of};
ghost use Rattle.capi_header.specs.Numbers.{lent_of, read_row, end_of, padding_part, points_row, end_row, size_row};

// The header at the front of s; the row's value is where it ends with its padding. Refused, it leaves all but the row.
#[unsafe(no_mangle)]
pub extern "C" fn las_header_read(
    s: &[u8],
    row: &mut [u64; 3],
    numbers: &mut [u64; 51],
    guid: &mut [u8; 16],
    system: &mut [u8; 32],
    software: &mut [u8; 32],
)
    ensures { (row.new, (numbers.new, guid.new, system.new, software.new)) ≡ read_row (numbers.old, guid.old, system.old, software.old) (end_of (judged s.now)) (read_of s.now) }
{
    capi_header::las_header_read(s, row, numbers, guid, system, software)
}

// Where the header's padding starts in s, and how many bytes it has; two zeros where there is none, as where the header is refused.
#[unsafe(no_mangle)]
pub extern "C" fn las_header_padding(s: &[u8], part: &mut [u64; 2])
    ensures { part.new ≡ padding_part s.now }
{
    capi_header::las_header_padding(s, part)
}

// How many points the header at the front of s counts.
#[unsafe(no_mangle)]
pub extern "C" fn las_header_points(s: &[u8], row: &mut [u64; 3])
    ensures { row.new ≡ points_row (read_of s.now) }
{
    capi_header::las_header_points(s, row)
}

// The first byte after the points, by the header at the front of s.
#[unsafe(no_mangle)]
pub extern "C" fn las_header_end_of_points(s: &[u8], row: &mut [u64; 3])
    ensures { row.new ≡ end_row (read_of s.now) }
{
    capi_header::las_header_end_of_points(s, row)
}

// The bytes of a header of this version without padding.
#[unsafe(no_mangle)]
pub extern "C" fn las_header_size(major: u8, minor: u8, row: &mut [u64; 3])
    ensures { row.new ≡ size_row (standard_of (record { major = major; minor = minor })) }
{
    capi_header::las_header_size(major, minor, row)
}

// The Rust's default header.
#[unsafe(no_mangle)]
pub extern "C" fn las_header_default(
    numbers: &mut [u64; 51],
    guid: &mut [u8; 16],
    system: &mut [u8; 32],
    software: &mut [u8; 32],
)
    ensures { (numbers.new, guid.new, system.new, software.new) ≡ lent_of default_header }
{
    capi_header::las_header_default(numbers, guid, system, software)
}
