// What a header says of the parts of its file: where they begin and how many there are. The file check, the part cursor and
// the walker go by these few numbers in place of the whole header.
#![tactic(auto)]

ghost use Rattle.std.specs.Prelude.{◌≡◌, cond};
ghost use Rattle.outline.specs.Outline.{evlr_start, evlr_count, packets_start, is_waveform, outline_of};

use header::{Evlr, Header, Version};

// The header's fields of these names; the count is the effective one. The later records, those after the points, are the EVLRs, or the
// waveform packets, which are one record; without any both numbers are 0.
#[derive(Clone, Copy)]
pub struct Outline {
    pub header_size: u16,
    pub offset_to_point_data: u32,
    pub number_of_variable_length_records: u32,
    pub point_data_record_format: u8,
    pub point_data_record_length: u16,
    pub number_of_point_records: u64,
    pub waveform: bool,
    pub start_of_later_records: u64,
    pub number_of_later_records: u32,
}

impl Outline {
    // The outline of a header.
    pub fn of(header: Header) -> Outline
        ensures { result ≡ outline_of header }
    {
        let evlr = header.evlr;
        let version = header.version;
        let start = header.start_of_waveform_data_packet_record;
        let packets = start_of_packets(start);
        let waveform = is_waveform(version, header.global_encoding, packets);
        Outline {
            header_size: header.header_size,
            offset_to_point_data: header.offset_to_point_data,
            number_of_variable_length_records: header.number_of_variable_length_records,
            point_data_record_format: header.point_data_record_format,
            point_data_record_length: header.point_data_record_length,
            number_of_point_records: header.number_of_point_records(),
            waveform,
            start_of_later_records: start_of(waveform, packets, evlr),
            number_of_later_records: number_of(waveform, evlr),
        }
    }
}

// Where the waveform packets start, or 0.
fn start_of_packets(start: Option<u64>) -> u64
    ensures { result ≡ packets_start start }
{
    match start {
        Some(n) => n,
        None => 0,
    }
}

// Whether a file has its waveform packets after the points: version 1.3, bit 1 of the global encoding, and a start.
fn is_waveform(version: Version, global_encoding: u16, start: u64) -> bool
    ensures { result ≡ is_waveform version global_encoding start }
{
    if version.major != 1 {
        return false;
    }
    if version.minor != 3 {
        return false;
    }
    if global_encoding / 2 % 2 != 1 {
        return false;
    }
    start != 0
}

// Where the later records start, or 0.
fn start_of(waveform: bool, packets: u64, evlr: Option<Evlr>) -> u64
    ensures { result ≡ cond waveform packets (evlr_start evlr) }
{
    if waveform {
        return packets;
    }
    match evlr {
        Some(pair) => pair.start_of_first_evlr,
        None => 0,
    }
}

// How many later records there are.
fn number_of(waveform: bool, evlr: Option<Evlr>) -> u32
    ensures { result ≡ cond waveform 1 (evlr_count evlr) }
{
    if waveform {
        return 1;
    }
    match evlr {
        Some(pair) => pair.number_of_evlrs,
        None => 0,
    }
}
