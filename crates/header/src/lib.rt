// The public header block of a LAS file, versions 1.0 to 1.4. From src/raw/header.rs and src/version.rs of las 0.11.2.
#![tactic(auto)]

ghost use Rattle.std.specs.Prelude.{◌≡◌, ◌≤◌, length};
ghost use Rattle.header.specs.Layout.{LegacyNumberOfPointsByReturn, NumberOfPointsByReturn};
ghost use Rattle.header.specs.Header.{value, start_of, evlr_of, nans_of, header_of, default_header, points_of, end_of, end_of_points};
ghost use Rattle.header.specs.Judged.{standard_of, sized, versioned, judged, read_of, padding_of};

use refusal::Refusal;

// What every header begins with.
pub const LASF: [u8; 4] = *b"LASF";

#[derive(Clone, Copy)]
pub struct Version {
    pub major: u8,
    pub minor: u8,
}

#[derive(Clone, Copy)]
pub struct Evlr {
    pub start_of_first_evlr: u64,
    pub number_of_evlrs: u32,
}

#[derive(Clone, Copy)]
pub struct LargeFile {
    pub number_of_point_records: u64,
    pub number_of_points_by_return: [u64; 15],
}

// The pattern of each of the header's floats that is a NaN, and 0 for the others: a float alone keeps no NaN's pattern.
#[derive(Clone, Copy)]
pub struct Nans {
    pub x_scale_factor: u64,
    pub y_scale_factor: u64,
    pub z_scale_factor: u64,
    pub x_offset: u64,
    pub y_offset: u64,
    pub z_offset: u64,
    pub max_x: u64,
    pub min_x: u64,
    pub max_y: u64,
    pub min_y: u64,
    pub max_z: u64,
    pub min_z: u64,
}

// A header without its signature, which can only be `LASF`, and its padding, which is a part of the caller's bytes.
#[derive(Clone, Copy)]
pub struct Header {
    pub file_source_id: u16,
    pub global_encoding: u16,
    pub guid: [u8; 16],
    pub version: Version,
    pub system_identifier: [u8; 32],
    pub generating_software: [u8; 32],
    pub file_creation_day_of_year: u16,
    pub file_creation_year: u16,
    pub header_size: u16,
    pub offset_to_point_data: u32,
    pub number_of_variable_length_records: u32,
    pub point_data_record_format: u8,
    pub point_data_record_length: u16,
    pub number_of_point_records: u32,
    pub number_of_points_by_return: [u32; 5],
    pub x_scale_factor: f64,
    pub y_scale_factor: f64,
    pub z_scale_factor: f64,
    pub x_offset: f64,
    pub y_offset: f64,
    pub z_offset: f64,
    pub max_x: f64,
    pub min_x: f64,
    pub max_y: f64,
    pub min_y: f64,
    pub max_z: f64,
    pub min_z: f64,
    pub nans: Nans,
    pub start_of_waveform_data_packet_record: Option<u64>,
    pub evlr: Option<Evlr>,
    pub has_large_file: bool,
    pub large_file: LargeFile,
}

// Where the standard block of a whole header ends, and where its padding does.
#[derive(Clone, Copy)]
pub struct Whole {
    pub block: usize,
    pub end: usize,
}

impl Version {
    // The bytes of a header of this version without padding, or refusal 3.
    pub fn header_size(self) -> Result<u16, Refusal>
        ensures { result ≡ standard_of self }
    {
        let minor = self.minor;
        let refused = Err(Refusal::Version((self.major as u16) * 256 + (minor as u16)));
        if self.major != 1 {
            return refused;
        }
        if minor < 3 {
            return Ok(227);
        }
        if minor < 4 {
            return Ok(235);
        }
        if minor < 5 {
            return Ok(375);
        }
        refused
    }
}

impl Header {
    // The header at the front of `s`, by rule 1 of document 01: refused with 1, 2 or 3.
    pub fn read_from(s: &[u8]) -> Result<Header, Refusal>
        ensures { result ≡ read_of s.now }
    {
        let whole = measure(s)?;
        Ok(read_block(&s[..whole.block]))
    }

    // The points the header counts: the legacy count if it is not zero, else the large count, if any.
    pub fn number_of_point_records(self) -> u64
        ensures { result ≡ points_of self }
    {
        if self.number_of_point_records != 0 {
            return self.number_of_point_records as u64;
        }
        if self.has_large_file {
            self.large_file.number_of_point_records
        } else {
            0
        }
    }

    // The first byte after the points, by the record length that the header states.
    pub fn offset_to_end_of_points(self) -> Result<u64, Refusal>
        ensures { result ≡ end_of_points self }
    {
        let offset = self.offset_to_point_data;
        let each = self.point_data_record_length;
        end_of_points(offset, self.number_of_point_records(), each)
    }
}

// Version 1.2, format 0, no points.
impl Default for Header {
    ghost is_default = { λ h. h ≡ default_header };

    fn default() -> Header {
        Header {
            file_source_id: 0,
            global_encoding: 0,
            guid: [0; 16],
            version: Version { major: 1, minor: 2 },
            system_identifier: [0; 32],
            generating_software: [0; 32],
            file_creation_day_of_year: 0,
            file_creation_year: 0,
            header_size: 227,
            offset_to_point_data: 227,
            number_of_variable_length_records: 0,
            point_data_record_format: 0,
            point_data_record_length: 20,
            number_of_point_records: 0,
            number_of_points_by_return: [0; 5],
            x_scale_factor: 0.0,
            y_scale_factor: 0.0,
            z_scale_factor: 0.0,
            x_offset: 0.0,
            y_offset: 0.0,
            z_offset: 0.0,
            max_x: 0.0,
            min_x: 0.0,
            max_y: 0.0,
            min_y: 0.0,
            max_z: 0.0,
            min_z: 0.0,
            nans: no_nans(),
            start_of_waveform_data_packet_record: None,
            evlr: None,
            has_large_file: false,
            large_file: LargeFile {
                number_of_point_records: 0,
                number_of_points_by_return: [0; 15],
            },
        }
    }
}

// The bytes between the standard block and the header-size field; empty where there are none, and on refusal.
pub fn padding(s: &[u8]) -> &[u8]
    ensures { result.now ≡ padding_of s.now }
{
    match measure(s) {
        Ok(whole) => &s[whole.block..whole.end],
        Err(_) => &s[..0],
    }
}

// Where the standard block of the header ends and where its padding does, or the refusal, by rule 1 of document 01 in its
// order.
pub fn measure(s: &[u8]) -> Result<Whole, Refusal>
    ensures { result ≡ judged s.now }
{
    if s.len() < 4 {
        return Err(Refusal::Short(4));
    }
    if s.starts_with(&LASF) {
        return judge_version(s);
    }
    Err(Refusal::Signature(le::u32_at(s, 0)))
}

// The rest of rule 1, for bytes that begin with the signature.
fn judge_version(s: &[u8]) -> Result<Whole, Refusal>
    ensures { result ≡ versioned s.now }
{
    if s.len() < 26 {
        return Err(Refusal::Short(26));
    }
    let version = Version {
        major: le::u8_at(s, 24),
        minor: le::u8_at(s, 25),
    };
    judge_size(s, version.header_size()?)
}

// Whether `s` holds a block of `n` bytes and as many as the header-size field says.
fn judge_size(s: &[u8], n: u16) -> Result<Whole, Refusal>
    ensures { result ≡ sized (Ok n) s.now }
{
    if s.len() < n as usize {
        return Err(Refusal::Short(n as u64));
    }
    let field = le::u16_at(s, 94);
    if s.len() < field as usize {
        return Err(Refusal::Short(field as u64));
    }
    if n < field {
        return Ok(Whole {
            block: n as usize,
            end: field as usize,
        });
    }
    Ok(Whole {
        block: n as usize,
        end: n as usize,
    })
}

// The header in the standard block of its version. What the version lacks lies past the block and is read as 0, so as
// missing.
fn read_block(b: &[u8]) -> Header
    requires { 227 ≤ length b.now }
    ensures { result ≡ header_of b.now }
{
    let minor = le::u8_at(b, 25);
    let large_file = LargeFile {
        number_of_point_records: le::u64_at(b, 247),
        number_of_points_by_return: large_by_return(b),
    };
    Header {
        file_source_id: le::u16_at(b, 4),
        global_encoding: le::u16_at(b, 6),
        guid: store::bytes_at(b, 8),
        version: Version {
            major: le::u8_at(b, 24),
            minor,
        },
        system_identifier: store::bytes_at(b, 26),
        generating_software: store::bytes_at(b, 58),
        file_creation_day_of_year: le::u16_at(b, 90),
        file_creation_year: le::u16_at(b, 92),
        header_size: le::u16_at(b, 94),
        offset_to_point_data: le::u32_at(b, 96),
        number_of_variable_length_records: le::u32_at(b, 100),
        point_data_record_format: le::u8_at(b, 104),
        point_data_record_length: le::u16_at(b, 105),
        number_of_point_records: le::u32_at(b, 107),
        number_of_points_by_return: by_return(b),
        x_scale_factor: le::f64_at(b, 131).value,
        y_scale_factor: le::f64_at(b, 139).value,
        z_scale_factor: le::f64_at(b, 147).value,
        x_offset: le::f64_at(b, 155).value,
        y_offset: le::f64_at(b, 163).value,
        z_offset: le::f64_at(b, 171).value,
        max_x: le::f64_at(b, 179).value,
        min_x: le::f64_at(b, 187).value,
        max_y: le::f64_at(b, 195).value,
        min_y: le::f64_at(b, 203).value,
        max_z: le::f64_at(b, 211).value,
        min_z: le::f64_at(b, 219).value,
        nans: read_nans(b),
        start_of_waveform_data_packet_record: start_of(le::u64_at(b, 227)),
        evlr: evlr_of(le::u64_at(b, 235), le::u32_at(b, 243)),
        has_large_file: minor == 4,
        large_file,
    }
}

// What is kept beside the floats.
fn read_nans(b: &[u8]) -> Nans
    ensures { result ≡ nans_of b.now }
{
    Nans {
        x_scale_factor: le::f64_at(b, 131).nan,
        y_scale_factor: le::f64_at(b, 139).nan,
        z_scale_factor: le::f64_at(b, 147).nan,
        x_offset: le::f64_at(b, 155).nan,
        y_offset: le::f64_at(b, 163).nan,
        z_offset: le::f64_at(b, 171).nan,
        max_x: le::f64_at(b, 179).nan,
        min_x: le::f64_at(b, 187).nan,
        max_y: le::f64_at(b, 195).nan,
        min_y: le::f64_at(b, 203).nan,
        max_z: le::f64_at(b, 211).nan,
        min_z: le::f64_at(b, 219).nan,
    }
}

// No NaN.
fn no_nans() -> Nans
    ensures { result ≡ default_header.nans }
{
    Nans {
        x_scale_factor: 0,
        y_scale_factor: 0,
        z_scale_factor: 0,
        x_offset: 0,
        y_offset: 0,
        z_offset: 0,
        max_x: 0,
        min_x: 0,
        max_y: 0,
        min_y: 0,
        max_z: 0,
        min_z: 0,
    }
}

// The legacy counts by return.
// Stays: one line for each place reads as the standard's table does; a loop would need an invariant over the array.
fn by_return(b: &[u8]) -> [u32; 5]
    ensures { result ≡ value LegacyNumberOfPointsByReturn b.now }
{
    [
        le::u32_at(b, 111),
        le::u32_at(b, 115),
        le::u32_at(b, 119),
        le::u32_at(b, 123),
        le::u32_at(b, 127),
    ]
}

// The counts by return of version 1.4.
// Stays: as `by_return`.
fn large_by_return(b: &[u8]) -> [u64; 15]
    ensures { result ≡ value NumberOfPointsByReturn b.now }
{
    [
        le::u64_at(b, 255),
        le::u64_at(b, 263),
        le::u64_at(b, 271),
        le::u64_at(b, 279),
        le::u64_at(b, 287),
        le::u64_at(b, 295),
        le::u64_at(b, 303),
        le::u64_at(b, 311),
        le::u64_at(b, 319),
        le::u64_at(b, 327),
        le::u64_at(b, 335),
        le::u64_at(b, 343),
        le::u64_at(b, 351),
        le::u64_at(b, 359),
        le::u64_at(b, 367),
    ]
}

// A waveform start of 0 is none.
fn start_of(n: u64) -> Option<u64>
    ensures { result ≡ start_of n }
{
    if n == 0 { None } else { Some(n) }
}

// An EVLR pair of which either is zero is none.
fn evlr_of(start_of_first_evlr: u64, number_of_evlrs: u32) -> Option<Evlr>
    ensures { result ≡ evlr_of start_of_first_evlr number_of_evlrs }
{
    if start_of_first_evlr == 0 {
        return None;
    }
    if number_of_evlrs == 0 {
        return None;
    }
    Some(Evlr {
        start_of_first_evlr,
        number_of_evlrs,
    })
}

// `offset + points * each`, or 12 where that does not fit.
fn end_of_points(offset: u32, points: u64, each: u16) -> Result<u64, Refusal>
    ensures { result ≡ end_of offset points each }
{
    let refused = Refusal::PointExtent(points);
    let bytes = points.checked_mul(each as u64).ok_or(refused)?;
    bytes.checked_add(offset as u64).ok_or(refused)
}
