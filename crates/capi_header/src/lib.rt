// Headers for C and Rust. A header crosses the boundary as 51 numbers, floats by their bits, and three texts:
//   0 to 3    file source id, global encoding, version (major, minor)
//   4 to 7    creation (day of year, year), header size, offset to the point data
//   8 to 11   number of VLRs, point format, record length, legacy count of points
//   12 to 16  the legacy counts by return
//   17 to 28  x, y, z scale; x, y, z offset; max x, min x, max y, min y, max z, min z
//   29, 30    whether there is a waveform start, and it
//   31 to 33  whether there are EVLRs, and their start and count
//   34 to 50  whether there is a large file, and its count and fifteen counts by return
//   guid (16 bytes), system identifier (32), generating software (32)
// A number of a part that is missing is 0. Rows are those of the crate words; crate `capi_header_write` is the way back.
#![tactic(auto)]

ghost use Rattle.std.specs.Prelude.{◌≡◌};
ghost use Rattle.header.specs.Header.{default_header, end_of_points};
ghost use Rattle.header.specs.Judged.{standard_of, judged, read_of};
ghost use Rattle.capi_header.specs.Numbers.{has_start, has_evlr, has_large, bits, numbers_of, lent_of, read_row, block_of, end_of, padding_part, points_row, end_by, end_row, size_row};

use header::{Evlr, Header, Version, Whole};
use le::float::F64;
use refusal::Refusal;

// The header at the front of s; the row's value is where it ends with its padding. Refused, it leaves all but the row.
pub fn las_header_read(
    s: &[u8],
    row: &mut [u64; 3],
    numbers: &mut [u64; 51],
    guid: &mut [u8; 16],
    system: &mut [u8; 32],
    software: &mut [u8; 32],
)
    ensures { (row.new, (numbers.new, guid.new, system.new, software.new)) ≡ read_row (numbers.old, guid.old, system.old, software.old) (end_of (judged s.now)) (read_of s.now) }
{
    match Header::read_from(s) {
        Ok(header) => {
            let id = header.guid;
            let identifier = header.system_identifier;
            let generating = header.generating_software;
            *numbers = numbers_of(header);
            *guid = id;
            *system = identifier;
            *software = generating;
            words::tell(row, 0, end_of(header::measure(s)) as u64, 0)
        }
        Err(refusal) => words::refuse(row, refusal, 0),
    }
}

// Where the header's padding starts in s, and how many bytes it has; two zeros where there is none, as where the header is refused.
pub fn las_header_padding(s: &[u8], part: &mut [u64; 2])
    ensures { part.new ≡ padding_part s.now }
{
    let padding = header::padding(s);
    words::tell_part(
        part,
        block_of(header::measure(s)) as u64,
        padding.len() as u64,
    )
}

// How many points the header at the front of s counts.
pub fn las_header_points(s: &[u8], row: &mut [u64; 3])
    ensures { row.new ≡ points_row (read_of s.now) }
{
    match Header::read_from(s) {
        Ok(header) => words::tell(row, 0, header.number_of_point_records(), 0),
        Err(refusal) => words::refuse(row, refusal, 0),
    }
}

// The first byte after the points, by the header at the front of s.
pub fn las_header_end_of_points(s: &[u8], row: &mut [u64; 3])
    ensures { row.new ≡ end_row (read_of s.now) }
{
    match Header::read_from(s) {
        Ok(header) => tell_end(row, header),
        Err(refusal) => words::refuse(row, refusal, 0),
    }
}

// The bytes of a header of this version without padding.
pub fn las_header_size(major: u8, minor: u8, row: &mut [u64; 3])
    ensures { row.new ≡ size_row (standard_of (record { major = major; minor = minor })) }
{
    let version = Version { major, minor };
    match version.header_size() {
        Ok(n) => words::tell(row, 0, n as u64, 0),
        Err(refusal) => words::refuse(row, refusal, 0),
    }
}

// The Rust's default header.
pub fn las_header_default(
    numbers: &mut [u64; 51],
    guid: &mut [u8; 16],
    system: &mut [u8; 32],
    software: &mut [u8; 32],
)
    ensures { (numbers.new, guid.new, system.new, software.new) ≡ lent_of default_header }
{
    let header = Header::default();
    let id = header.guid;
    let identifier = header.system_identifier;
    let generating = header.generating_software;
    *numbers = numbers_of(header);
    *guid = id;
    *system = identifier;
    *software = generating;
}

// The row of a header's end of points.
fn tell_end(row: &mut [u64; 3], header: Header)
    ensures { row.new ≡ end_by (end_of_points header) }
{
    match header.offset_to_end_of_points() {
        Ok(n) => words::tell(row, 0, n, 0),
        Err(refusal) => words::refuse(row, refusal, 0),
    }
}

// Where the header's block ends, and its padding starts.
fn block_of(answer: Result<Whole, Refusal>) -> usize
    ensures { result ≡ block_of answer }
{
    match answer {
        Ok(whole) => whole.block,
        Err(_) => 0,
    }
}

// Where its padding ends.
fn end_of(answer: Result<Whole, Refusal>) -> usize
    ensures { result ≡ end_of answer }
{
    match answer {
        Ok(whole) => whole.end,
        Err(_) => 0,
    }
}

// A header's numbers.
fn numbers_of(h: Header) -> [u64; 51]
    ensures { result ≡ numbers_of h }
{
    let by_return = h.number_of_points_by_return;
    let nans = h.nans;
    let start = h.start_of_waveform_data_packet_record;
    let maybe_evlr = h.evlr;
    let evlr = header_write::evlr_back(maybe_evlr);
    let maybe_large = h.large_file;
    let large = header_write::large_back(h.has_large_file, maybe_large);
    let large_by_return = large.number_of_points_by_return;
    [
        wide16(h.file_source_id),
        wide16(h.global_encoding),
        wide8(h.version.major),
        wide8(h.version.minor),
        wide16(h.file_creation_day_of_year),
        wide16(h.file_creation_year),
        wide16(h.header_size),
        wide32(h.offset_to_point_data),
        wide32(h.number_of_variable_length_records),
        wide8(h.point_data_record_format),
        wide16(h.point_data_record_length),
        wide32(h.number_of_point_records),
        wide32(by_return[0]),
        wide32(by_return[1]),
        wide32(by_return[2]),
        wide32(by_return[3]),
        wide32(by_return[4]),
        float_bits(h.x_scale_factor, nans.x_scale_factor),
        float_bits(h.y_scale_factor, nans.y_scale_factor),
        float_bits(h.z_scale_factor, nans.z_scale_factor),
        float_bits(h.x_offset, nans.x_offset),
        float_bits(h.y_offset, nans.y_offset),
        float_bits(h.z_offset, nans.z_offset),
        float_bits(h.max_x, nans.max_x),
        float_bits(h.min_x, nans.min_x),
        float_bits(h.max_y, nans.max_y),
        float_bits(h.min_y, nans.min_y),
        float_bits(h.max_z, nans.max_z),
        float_bits(h.min_z, nans.min_z),
        has_start(start),
        header_write::start_back(start),
        has_evlr(maybe_evlr),
        evlr.start_of_first_evlr,
        wide32(evlr.number_of_evlrs),
        has_large(h.has_large_file),
        large.number_of_point_records,
        large_by_return[0],
        large_by_return[1],
        large_by_return[2],
        large_by_return[3],
        large_by_return[4],
        large_by_return[5],
        large_by_return[6],
        large_by_return[7],
        large_by_return[8],
        large_by_return[9],
        large_by_return[10],
        large_by_return[11],
        large_by_return[12],
        large_by_return[13],
        large_by_return[14],
    ]
}

// The bits of an f64 with its NaN's pattern beside it.
fn float_bits(value: f64, nan: u64) -> u64
    ensures { result ≡ bits value nan }
{
    F64 { value, nan }.to_bits()
}

// A number of fewer bits as one of 64. The header's are too many for a proof of each cast where it stands.

fn wide8(n: u8) -> u64
    ensures { result ≡ n }
{
    n as u64
}

fn wide16(n: u16) -> u64
    ensures { result ≡ n }
{
    n as u64
}

fn wide32(n: u32) -> u64
    ensures { result ≡ n }
{
    n as u64
}

// Whether what may be missing is there. Where it isn't zeros stand for it, as the header's writer has them.

fn has_start(start: Option<u64>) -> u64
    ensures { result ≡ has_start start }
{
    match start {
        Some(_) => 1,
        None => 0,
    }
}

fn has_evlr(evlr: Option<Evlr>) -> u64
    ensures { result ≡ has_evlr evlr }
{
    match evlr {
        Some(_) => 1,
        None => 0,
    }
}

fn has_large(has: bool) -> u64
    ensures { result ≡ has_large has }
{
    if has { 1 } else { 0 }
}
