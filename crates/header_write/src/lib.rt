// The header written: `Header::write_to` of src/raw/header.rs of las 0.11.2. It stands apart from crate `header` so that
// each is checked within half a minute.
#![tactic(auto)]

ghost use Rattle.std.specs.Prelude.{◌≡◌, ◌+◌, length, cond, ◌++◌};
ghost use Rattle.std.proofs.lemmas.List.Edits.{sets};
ghost use Rattle.le.specs.Le.{bytes};
ghost use Rattle.le.specs.Real.{f64_bits_of};
ghost use Rattle.fields.specs.Table.{joined, Stored};
ghost use Rattle.header.specs.Layout.{LegacyNumberOfPointsByReturn, NumberOfPointsByReturn, place, width, origin, contents, scales, bounds, large, fields_of};
ghost use Rattle.header.specs.Header.{no_large};
ghost use Rattle.header.specs.Judged.{standard_of};
ghost use Rattle.header_write.specs.Bytes.{start_back, evlr_back, field_bytes};
ghost use Rattle.header_write.specs.Wrote.{wrote_by, wrote_of};

use header::{Evlr, Header, LargeFile};
use le::float::F64;
use refusal::Refusal;

// Writes the header's block and then `padding`, whatever its header-size field says, and leaves what lies past them.
// Refused with 3, then with 22, it writes nothing.
pub fn write_to(header: Header, padding: &[u8], dst: &mut [u8]) -> Result<usize, Refusal>
    ensures { (result, dst.new) ≡ wrote_of header padding.now dst.old }
{
    let version = header.version;
    match version.header_size() {
        Ok(n) => write_sized(header, n, padding, dst),
        Err(refusal) => Err(refusal),
    }
}

// The header's block of `n` bytes and then `padding`, or 22.
fn write_sized(h: Header, n: u16, padding: &[u8], dst: &mut [u8]) -> Result<usize, Refusal>
    requires { Ok n ≡ standard_of h.version }
    ensures { (result, dst.new) ≡ wrote_by (Ok n) h padding.now dst.old }
{
    let size = n as usize;
    let wanted = size + padding.len();
    if dst.len() < wanted {
        return Err(Refusal::NoRoom(wanted as u64));
    }
    write_block(h, dst);
    let _ = lent::put(&mut dst[size..], padding);
    Ok(wanted)
}

// Each field of the header's version at its place.
fn write_block(h: Header, dst: &mut [u8])
    ensures { Stored width place (field_bytes h) dst.old (fields_of h.version.minor) dst.new }
{
    let minor = h.version.minor;
    let start = h.start_of_waveform_data_packet_record;
    write_origin(h, dst);
    write_contents(h, dst);
    write_floats(h, dst);
    if minor < 3 {
        return;
    }
    store::set_u64(dst, 227, start_back(start));
    if minor < 4 {
        return;
    }
    write_large(h, dst);
}

// Where the file comes from.
fn write_origin(h: Header, dst: &mut [u8])
    ensures { Stored width place (field_bytes h) dst.old origin dst.new }
{
    store::set_bytes(dst, 0, &header::LASF);
    store::set_u16(dst, 4, h.file_source_id);
    store::set_u16(dst, 6, h.global_encoding);
    store::set_bytes(dst, 8, &h.guid);
    store::set_u8(dst, 24, h.version.major);
    store::set_u8(dst, 25, h.version.minor);
    store::set_bytes(dst, 26, &h.system_identifier);
    store::set_bytes(dst, 58, &h.generating_software);
}

// What the file holds.
fn write_contents(h: Header, dst: &mut [u8])
    ensures { Stored width place (field_bytes h) dst.old contents dst.new }
{
    let by_return = h.number_of_points_by_return;
    store::set_u16(dst, 90, h.file_creation_day_of_year);
    store::set_u16(dst, 92, h.file_creation_year);
    store::set_u16(dst, 94, h.header_size);
    store::set_u32(dst, 96, h.offset_to_point_data);
    store::set_u32(dst, 100, h.number_of_variable_length_records);
    store::set_u8(dst, 104, h.point_data_record_format);
    store::set_u16(dst, 105, h.point_data_record_length);
    store::set_u32(dst, 107, h.number_of_point_records);
    set_by_return(dst, by_return);
}

// How the points are scaled, and where they lie.
fn write_floats(h: Header, dst: &mut [u8])
    ensures { Stored width place (field_bytes h) dst.old (scales ++ bounds) dst.new }
{
    let nans = h.nans;
    set_f64(dst, 131, h.x_scale_factor, nans.x_scale_factor);
    set_f64(dst, 139, h.y_scale_factor, nans.y_scale_factor);
    set_f64(dst, 147, h.z_scale_factor, nans.z_scale_factor);
    set_f64(dst, 155, h.x_offset, nans.x_offset);
    set_f64(dst, 163, h.y_offset, nans.y_offset);
    set_f64(dst, 171, h.z_offset, nans.z_offset);
    set_f64(dst, 179, h.max_x, nans.max_x);
    set_f64(dst, 187, h.min_x, nans.min_x);
    set_f64(dst, 195, h.max_y, nans.max_y);
    set_f64(dst, 203, h.min_y, nans.min_y);
    set_f64(dst, 211, h.max_z, nans.max_z);
    set_f64(dst, 219, h.min_z, nans.min_z);
}

// What only version 1.4 has.
fn write_large(h: Header, dst: &mut [u8])
    ensures { Stored width place (field_bytes h) dst.old large dst.new }
{
    let pair = h.evlr;
    let evlr = evlr_back(pair);
    let counts = h.large_file;
    let large_file = large_back(h.has_large_file, counts);
    let by_return = large_file.number_of_points_by_return;
    store::set_u64(dst, 235, evlr.start_of_first_evlr);
    store::set_u32(dst, 243, evlr.number_of_evlrs);
    store::set_u64(dst, 247, large_file.number_of_point_records);
    set_large_by_return(dst, by_return);
}

// What may be missing, as it is written: no waveform start as 0.
pub fn start_back(start: Option<u64>) -> u64
    ensures { result ≡ start_back start }
{
    match start {
        Some(n) => n,
        None => 0,
    }
}

// No EVLRs as two zeros.
pub fn evlr_back(evlr: Option<Evlr>) -> Evlr
    ensures { result ≡ evlr_back evlr }
{
    match evlr {
        Some(pair) => pair,
        None => Evlr {
            start_of_first_evlr: 0,
            number_of_evlrs: 0,
        },
    }
}

// No large file as zeros.
pub fn large_back(has_large_file: bool, large_file: LargeFile) -> LargeFile
    ensures { result ≡ cond has_large_file large_file no_large }
{
    if has_large_file {
        return large_file;
    }
    LargeFile {
        number_of_point_records: 0,
        number_of_points_by_return: [0; 15],
    }
}

// Stores a float by its pattern, from its value and what is kept beside it.
fn set_f64(d: &mut [u8], at: usize, value: f64, nan: u64)
    ensures { d.new ≡ sets d.old at (bytes 8 (f64_bits_of (record { value = value; nan = nan }))) }
{
    store::set_u64(d, at, F64 { value, nan }.to_bits())
}

// Stores the legacy counts by return, and tells how many there are.
fn set_by_return(d: &mut [u8], xs: [u32; 5])
    ensures { (d.new ≡ sets d.old (place LegacyNumberOfPointsByReturn) (joined (bytes 4) xs)) × (length xs ≡ 5) }
{
    for (i, count) in xs.iter().enumerate() {
        store::set_u32(d, 111 + 4 * i, *count);
    }
}

// Stores the counts by return of version 1.4, and tells how many there are.
fn set_large_by_return(d: &mut [u8], xs: [u64; 15])
    ensures { (d.new ≡ sets d.old (place NumberOfPointsByReturn) (joined (bytes 8) xs)) × (length xs ≡ 15) }
{
    for (i, count) in xs.iter().enumerate() {
        store::set_u64(d, 255 + 8 * i, *count);
    }
}
