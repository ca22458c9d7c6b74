// The header of a file that goes to the other version: 1.2 with format 1 or 3 becomes 1.4 with format 6 or 7, and such a 1.4 header becomes
// 1.2. From document 02, No. 3: "Whole files, old to new and back". The points are not looked at here.
#![tactic(auto)]

ghost use Rattle.std.specs.Prelude.{◌≡◌, true, ◌++◌, drop, replicate};
ghost use Rattle.std.specs.List.{list_all};
ghost use Rattle.header_convert.specs.Turned.{is_of, beside, new_code, old_code, large_of, old_by_return, fits32, is_zero, counts_fit, changed_of, new_header, old_header, new_goes, old_goes, new_turned, old_turned};
ghost use Rattle.header_convert.specs.Steps.{NewFits, OldFits};

use header::{Header, LargeFile, Version};
use refusal::Refusal;

// What a header says of its version and of where its points lie, and as what.
#[derive(Clone, Copy)]
pub struct Places {
    pub minor: u8,
    pub header_size: u16,
    pub offset_to_point_data: u32,
    pub format: u8,
    pub record_length: u16,
}

// Whether a header of version 1.2 goes to 1.4. Refused: 32 where the version is not 1.2 or the format neither 1 nor 3; 33 where there are
// EVLRs or a waveform start; then 4, 9 and 8 where header size, point offset or record length would not fit its field.
pub fn ask_new(header: Header) -> Result<(), Refusal>
    ensures { result ≡ new_goes header }
{
    if !is_of(header, 2, 1, 3) {
        return Err(Refusal::OtherVersionOrFormat);
    }
    if is_beside(header) {
        return Err(Refusal::EvlrsOrWaveforms);
    }
    if 65387 < header.header_size {
        return Err(Refusal::HeaderSize(header.header_size));
    }
    if 4294967147 < header.offset_to_point_data {
        return Err(Refusal::PointOffset(header.offset_to_point_data));
    }
    if 65533 < header.point_data_record_length {
        return Err(Refusal::RecordLength((header.point_data_record_length as u32) + 2));
    }
    Ok(())
}

// Whether a header of version 1.4 goes to 1.2. Refused: 32 where the version is not 1.4 or the format neither 6 nor 7; 33 as above; 34 where
// the effective count, or one of the five counts by return that would be written, is over 2^32 - 1, or a large count of returns 6 to 15
// is not zero; then 4, 9 and 8 where header size, point offset or record length has not as much as it would lose.
pub fn ask_old(header: Header) -> Result<(), Refusal>
    ensures { result ≡ old_goes header }
{
    if !is_of(header, 4, 6, 7) {
        return Err(Refusal::OtherVersionOrFormat);
    }
    if is_beside(header) {
        return Err(Refusal::EvlrsOrWaveforms);
    }
    if !counts_fit(header) {
        return Err(Refusal::CountsTooLargeForOld);
    }
    if header.header_size < 148 {
        return Err(Refusal::HeaderSize(header.header_size));
    }
    if header.offset_to_point_data < 148 {
        return Err(Refusal::PointOffset(header.offset_to_point_data));
    }
    if header.point_data_record_length < 2 {
        return Err(Refusal::RecordLength(header.point_data_record_length as u32));
    }
    Ok(())
}

// The header of version 1.4 in place of one of 1.2 that goes; one that does not, as it is.
pub fn to_new(header: Header) -> Header
    ensures { result ≡ new_turned header }
{
    match ask_new(header) {
        Ok(()) => new_header(header),
        Err(_) => header,
    }
}

// The header of version 1.2 in place of one of 1.4 that goes; one that does not, as it is.
pub fn to_old(header: Header) -> Header
    ensures { result ≡ old_turned header }
{
    match ask_old(header) {
        Ok(()) => old_header(header),
        Err(_) => header,
    }
}

// Whether a header is of version 1.minor and of one of two formats.
fn is_of(header: Header, minor: u8, one: u8, other: u8) -> bool
    ensures { result ≡ is_of minor one other header }
{
    let version = header.version;
    let format = header.point_data_record_format;
    (version.major == 1) & (version.minor == minor) & ((format == one) | (format == other))
}

// Whether there are EVLRs or a waveform start.
#[tactic(auto, unfolding(crate::specs::Turned::beside))]
fn is_beside(header: Header) -> bool
    ensures { result ≡ beside header }
{
    header.start_of_waveform_data_packet_record.is_some() || header.evlr.is_some()
}

// The 1.4 header where its fields have room: 148 bytes more before the points, two more in each record, and the counts as large ones.
fn new_header(header: Header) -> Header
    requires { NewFits header }
    ensures { result ≡ new_header header }
{
    let by_return = header.number_of_points_by_return;
    let places = Places {
        minor: 4,
        header_size: header.header_size + 148,
        offset_to_point_data: header.offset_to_point_data + 148,
        format: new_code(header.point_data_record_format),
        record_length: header.point_data_record_length + 2,
    };
    let large_file = LargeFile {
        number_of_point_records: header.number_of_point_records as u64,
        number_of_points_by_return: fifteen(by_return),
    };
    changed(header, places, 0, [0; 5], true, large_file)
}

// The 1.2 header where its counts fit, the other way round.
fn old_header(header: Header) -> Header
    requires { OldFits header }
    ensures { result ≡ old_header header }
{
    let points = header.number_of_point_records() as u32;
    let by_return = narrowed(old_by_return(header));
    let places = Places {
        minor: 2,
        header_size: header.header_size - 148,
        offset_to_point_data: header.offset_to_point_data - 148,
        format: old_code(header.point_data_record_format),
        record_length: header.point_data_record_length - 2,
    };
    let large_file = LargeFile {
        number_of_point_records: 0,
        number_of_points_by_return: [0; 15],
    };
    changed(header, places, points, by_return, false, large_file)
}

// A header with another version, other places and counts; it names nothing beside the points, and all else is kept.
fn changed(
    header: Header,
    places: Places,
    points: u32,
    by_return: [u32; 5],
    has_large_file: bool,
    large_file: LargeFile,
) -> Header
    ensures { result ≡ changed_of places points by_return has_large_file large_file header }
{
    let guid = header.guid;
    let system_identifier = header.system_identifier;
    let generating_software = header.generating_software;
    let nans = header.nans;
    Header {
        file_source_id: header.file_source_id,
        global_encoding: header.global_encoding,
        guid,
        version: Version {
            major: 1,
            minor: places.minor,
        },
        system_identifier,
        generating_software,
        file_creation_day_of_year: header.file_creation_day_of_year,
        file_creation_year: header.file_creation_year,
        header_size: places.header_size,
        offset_to_point_data: places.offset_to_point_data,
        number_of_variable_length_records: header.number_of_variable_length_records,
        point_data_record_format: places.format,
        point_data_record_length: places.record_length,
        number_of_point_records: points,
        number_of_points_by_return: by_return,
        x_scale_factor: header.x_scale_factor,
        y_scale_factor: header.y_scale_factor,
        z_scale_factor: header.z_scale_factor,
        x_offset: header.x_offset,
        y_offset: header.y_offset,
        z_offset: header.z_offset,
        max_x: header.max_x,
        min_x: header.min_x,
        max_y: header.max_y,
        min_y: header.min_y,
        max_z: header.max_z,
        min_z: header.min_z,
        nans,
        start_of_waveform_data_packet_record: None,
        evlr: None,
        has_large_file,
        large_file,
    }
}

// The format that 1 or 3 goes up to.
fn new_code(format: u8) -> u8
    ensures { result ≡ new_code format }
{
    if format == 1 { 6 } else { 7 }
}

// The format that 6 or 7 goes down to.
fn old_code(format: u8) -> u8
    ensures { result ≡ old_code format }
{
    if format == 6 { 1 } else { 3 }
}

// The large counts by return; zeros where there are none.
fn large_of(header: Header) -> [u64; 15]
    ensures { result ≡ large_of header }
{
    if header.has_large_file {
        let counts = header.large_file;
        return counts.number_of_points_by_return;
    }
    [0; 15]
}

// The counts by return of an old header: the legacy ones if the legacy count isn't zero, else the first five of the large ones.
fn old_by_return(header: Header) -> [u64; 5]
    ensures { result ≡ old_by_return header }
{
    if header.number_of_point_records == 0 {
        let large = large_of(header);
        return [large[0], large[1], large[2], large[3], large[4]];
    }
    let legacy = header.number_of_points_by_return;
    widened(legacy)
}

// Whether the counts have a place in an old header: none over 2^32 - 1, and none of returns 6 to 15.
fn counts_fit(header: Header) -> bool
    ensures { result ≡ counts_fit header }
{
    (header.number_of_point_records() < 4294967296)
        & five_fit(old_by_return(header))
        & no_more(large_of(header))
}

// Whether none of five counts is over 2^32 - 1.
fn five_fit(xs: [u64; 5]) -> bool
    ensures { result ≡ list_all fits32 xs }
{
    xs.iter().all(|x| *x < 4294967296)
}

// Whether the large counts of returns 6 to 15 are zero.
fn no_more(xs: [u64; 15]) -> bool
    ensures { result ≡ list_all is_zero (drop 5 xs) }
{
    xs[5..].iter().all(|x| *x == 0)
}

// Five counts, as large ones.
fn widened(xs: [u32; 5]) -> [u64; 5]
    ensures { result ≡ xs }
{
    [
        xs[0] as u64,
        xs[1] as u64,
        xs[2] as u64,
        xs[3] as u64,
        xs[4] as u64,
    ]
}

// Five counts that fit, as legacy ones.
fn narrowed(xs: [u64; 5]) -> [u32; 5]
    requires { list_all fits32 xs ≡ true }
    ensures { result ≡ xs }
{
    [
        xs[0] as u32,
        xs[1] as u32,
        xs[2] as u32,
        xs[3] as u32,
        xs[4] as u32,
    ]
}

// Five legacy counts as the first of fifteen, the others zero.
fn fifteen(xs: [u32; 5]) -> [u64; 15]
    ensures { result ≡ xs ++ replicate 10 0 }
{
    [
        xs[0] as u64,
        xs[1] as u64,
        xs[2] as u64,
        xs[3] as u64,
        xs[4] as u64,
        0,
        0,
        0,
        0,
        0,
        0,
        0,
        0,
        0,
        0,
    ]
}
