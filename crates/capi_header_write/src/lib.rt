// Headers written for C and Rust, from the 51 numbers and three texts that crate `capi_header` lists. A number of a part
// that is missing is ignored; of a number wider than its field the low bits count. Apart from `capi_header` because together
// they would be checked for a minute.
#![tactic(auto)]

ghost use Rattle.std.specs.Prelude.{◌≡◌, get_or};
ghost use Rattle.le.specs.Real.{f64_of};
ghost use Rattle.header_write.specs.Wrote.{wrote_of};
ghost use Rattle.words.specs.Rows.{written_row};
ghost use Rattle.capi_header_write.specs.Numbers.{low_from, start_from, evlr_from, large_from, nans_from, header_from};

use header::{Evlr, Header, LargeFile, Nans, Version};
use le::float::F64;
use words::{low8, low16, low32, nth};

// Writes the header of 51 numbers and three texts, and then its padding, to the front of dst; the row's value is the count
// of bytes.
pub fn las_header_write(
    numbers: &[u64; 51],
    guid: &[u8; 16],
    system: &[u8; 32],
    software: &[u8; 32],
    padding: &[u8],
    dst: &mut [u8],
    row: &mut [u64; 3],
)
    ensures { (row.new, dst.new) ≡ written_row (wrote_of (header_from numbers.now guid.now system.now software.now) padding.now dst.old) }
{
    let header = header_from(numbers, *guid, *system, *software);
    match header_write::write_to(header, padding, dst) {
        Ok(n) => words::tell(row, 0, n as u64, 0),
        Err(refusal) => words::refuse(row, refusal, 0),
    }
}

// The header of 51 numbers and three texts.
fn header_from(n: &[u64; 51], guid: [u8; 16], system: [u8; 32], software: [u8; 32]) -> Header
    ensures { result ≡ header_from n.now guid system software }
{
    // a slice from here on, as `words` reads numbers
    let n: &[u64] = n;
    Header {
        file_source_id: low16(n, 0),
        global_encoding: low16(n, 1),
        guid,
        version: Version {
            major: low8(n, 2),
            minor: low8(n, 3),
        },
        system_identifier: system,
        generating_software: software,
        file_creation_day_of_year: low16(n, 4),
        file_creation_year: low16(n, 5),
        header_size: low16(n, 6),
        offset_to_point_data: low32(n, 7),
        number_of_variable_length_records: low32(n, 8),
        point_data_record_format: low8(n, 9),
        point_data_record_length: low16(n, 10),
        number_of_point_records: low32(n, 11),
        number_of_points_by_return: by_return_from(n),
        x_scale_factor: value(n, 17),
        y_scale_factor: value(n, 18),
        z_scale_factor: value(n, 19),
        x_offset: value(n, 20),
        y_offset: value(n, 21),
        z_offset: value(n, 22),
        max_x: value(n, 23),
        min_x: value(n, 24),
        max_y: value(n, 25),
        min_y: value(n, 26),
        max_z: value(n, 27),
        min_z: value(n, 28),
        nans: nans_from(n),
        start_of_waveform_data_packet_record: start_from(n),
        evlr: evlr_from(n),
        has_large_file: nth(n, 34) != 0,
        large_file: large_from(n),
    }
}

// The legacy counts by return.
fn by_return_from(n: &[u64]) -> [u32; 5]
    ensures { result ≡ low_from n.now 12 5 }
{
    [
        low32(n, 12),
        low32(n, 13),
        low32(n, 14),
        low32(n, 15),
        low32(n, 16),
    ]
}

// What is kept beside the floats.
fn nans_from(n: &[u64]) -> Nans
    ensures { result ≡ nans_from n.now }
{
    Nans {
        x_scale_factor: nan(n, 17),
        y_scale_factor: nan(n, 18),
        z_scale_factor: nan(n, 19),
        x_offset: nan(n, 20),
        y_offset: nan(n, 21),
        z_offset: nan(n, 22),
        max_x: nan(n, 23),
        min_x: nan(n, 24),
        max_y: nan(n, 25),
        min_y: nan(n, 26),
        max_z: nan(n, 27),
        min_z: nan(n, 28),
    }
}

// What may be missing: any number but 0 says that it is there.

fn start_from(n: &[u64]) -> Option<u64>
    ensures { result ≡ start_from (get_or n.now 29 0) (get_or n.now 30 0) }
{
    if nth(n, 29) == 0 {
        return None;
    }
    Some(nth(n, 30))
}

fn evlr_from(n: &[u64]) -> Option<Evlr>
    ensures { result ≡ evlr_from (get_or n.now 31 0) (get_or n.now 32 0) (get_or n.now 33 0) }
{
    if nth(n, 31) == 0 {
        return None;
    }
    Some(Evlr {
        start_of_first_evlr: nth(n, 32),
        number_of_evlrs: low32(n, 33),
    })
}

fn large_from(n: &[u64]) -> LargeFile
    ensures { result ≡ large_from n.now }
{
    LargeFile {
        number_of_point_records: nth(n, 35),
        number_of_points_by_return: [
            nth(n, 36),
            nth(n, 37),
            nth(n, 38),
            nth(n, 39),
            nth(n, 40),
            nth(n, 41),
            nth(n, 42),
            nth(n, 43),
            nth(n, 44),
            nth(n, 45),
            nth(n, 46),
            nth(n, 47),
            nth(n, 48),
            nth(n, 49),
            nth(n, 50),
        ],
    }
}

// The two halves of the float that the number at place k is the bits of.

fn value(n: &[u64], k: usize) -> f64
    ensures { result ≡ (f64_of (get_or n.now k 0)).value }
{
    F64::from_bits(nth(n, k)).value
}

fn nan(n: &[u64], k: usize) -> u64
    ensures { result ≡ (f64_of (get_or n.now k 0)).nan }
{
    F64::from_bits(nth(n, k)).nan
}
