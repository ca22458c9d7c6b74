// The library for C and Rust: numbers and byte slices only. What C cannot hold goes as a word, a u32 with its parts at
// fixed bits, and an answer that may be a refusal goes into a row of three numbers that the caller lends: document 01's
// number, value and record number, where number 0 says that it worked and the value is the result.
#![tactic(auto)]

ghost use Rattle.std.specs.Prelude.{◌≡◌, pos};
ghost use Rattle.angle.specs.Angle.{nearest_rank, to_rank, to_scaled, to_degrees, from_degrees, same_angle};
ghost use Rattle.flags.specs.Readings.{return_number_of, number_of_returns_of, direction_of, synthetic_of, key_point_of, withheld_of, overlap_of, channel_of, edge_of, class_of};
ghost use Rattle.flags.specs.Bytes.{two_bytes_of, three_bytes_of, cleared_of, same_of};
ghost use Rattle.format.specs.Codes.{format_of, code_of};
ghost use Rattle.format.specs.Fields.{len_of};
ghost use Rattle.format.specs.Format.{extended_of, plain};
ghost use Rattle.words.specs.Words.{angle_of, angle_word, direction_word, flags_of, flags_word, three_word, format_of_word, format_word};
ghost use Rattle.capi.specs.Rows.{new_row, len_row, code_row, two_row};

use angle::ScanAngle;
use flags::{Flags, ScanDirection};
use format::Format;

// ---- formats

// The format with this code, as a format word.
pub fn las_format_new(code: u8, row: &mut [u64; 3])
    ensures { row.new ≡ new_row (format_of code) }
{
    match Format::new(code) {
        Ok(format) => words::tell(row, 0, words::format_word(format) as u64, 0),
        Err(refusal) => words::refuse(row, refusal, 0),
    }
}

// The format extended.
pub fn las_format_extend(format: u32) -> u32
    ensures { result ≡ format_word (extended_of (format_of_word format)) }
{
    words::format_word(words::format_of(format).extend())
}

// The bytes of a record of the format.
pub fn las_format_len(format: u32, row: &mut [u64; 3])
    ensures { row.new ≡ len_row (len_of (format_of_word format)) }
{
    match words::format_of(format).len() {
        Ok(n) => words::tell(row, 0, n as u64, 0),
        Err(refusal) => words::refuse(row, refusal, 0),
    }
}

// The format's code.
pub fn las_format_to_u8(format: u32, row: &mut [u64; 3])
    ensures { row.new ≡ code_row (code_of (format_of_word format)) }
{
    match words::format_of(format).to_u8() {
        Ok(n) => words::tell(row, 0, n as u64, 0),
        Err(refusal) => words::refuse(row, refusal, 0),
    }
}

// Format 0.
pub fn las_format_default() -> u32
    ensures { result ≡ format_word plain }
{
    words::format_word(Format::default())
}

// ---- flags

// The flags of two bytes, as a flags word.
pub fn las_flags_two_bytes(a: u8, b: u8) -> u32
    ensures { result ≡ flags_word (Flags.TwoByte a b) }
{
    words::flags_word(Flags::TwoByte(a, b))
}

// The flags of three bytes, as a flags word.
pub fn las_flags_three_bytes(a: u8, b: u8, c: u8) -> u32
    ensures { result ≡ flags_word (Flags.ThreeByte a b c) }
{
    words::flags_word(Flags::ThreeByte(a, b, c))
}

// The return number.
pub fn las_flags_return_number(flags: u32) -> u8
    ensures { result ≡ return_number_of (flags_of flags) }
{
    words::flags_of(flags).return_number()
}

// The number of returns.
pub fn las_flags_number_of_returns(flags: u32) -> u8
    ensures { result ≡ number_of_returns_of (flags_of flags) }
{
    words::flags_of(flags).number_of_returns()
}

// The scan direction: 0 right to left, 1 left to right.
pub fn las_flags_scan_direction(flags: u32) -> u8
    ensures { result ≡ direction_word (direction_of (flags_of flags)) }
{
    match words::flags_of(flags).scan_direction() {
        ScanDirection::RightToLeft => 0,
        ScanDirection::LeftToRight => 1,
    }
}

// Whether the point is synthetic.
pub fn las_flags_is_synthetic(flags: u32) -> bool
    ensures { result ≡ synthetic_of (flags_of flags) }
{
    words::flags_of(flags).is_synthetic()
}

// Whether the point is a key point.
pub fn las_flags_is_key_point(flags: u32) -> bool
    ensures { result ≡ key_point_of (flags_of flags) }
{
    words::flags_of(flags).is_key_point()
}

// Whether the point is withheld.
pub fn las_flags_is_withheld(flags: u32) -> bool
    ensures { result ≡ withheld_of (flags_of flags) }
{
    words::flags_of(flags).is_withheld()
}

// Whether the point is overlap, by the Rust's reading.
pub fn las_flags_is_overlap(flags: u32) -> bool
    ensures { result ≡ overlap_of (flags_of flags) }
{
    words::flags_of(flags).is_overlap()
}

// The scanner channel.
pub fn las_flags_scanner_channel(flags: u32) -> u8
    ensures { result ≡ channel_of (flags_of flags) }
{
    words::flags_of(flags).scanner_channel()
}

// Whether the point is the edge of a flight line.
pub fn las_flags_is_edge_of_flight_line(flags: u32) -> bool
    ensures { result ≡ edge_of (flags_of flags) }
{
    words::flags_of(flags).is_edge_of_flight_line()
}

// The class.
pub fn las_flags_class(flags: u32) -> u8
    ensures { result ≡ class_of (flags_of flags) }
{
    words::flags_of(flags).class()
}

// The two bytes, the first in bits 0 to 7 of the value and the second in bits 8 to 15.
pub fn las_flags_to_two_bytes(flags: u32, row: &mut [u64; 3])
    ensures { row.new ≡ two_row (two_bytes_of (flags_of flags)) }
{
    match words::flags_of(flags).to_two_bytes() {
        Ok((a, b)) => words::tell(row, 0, (a as u64) + (b as u64) * 256, 0),
        Err(refusal) => words::refuse(row, refusal, 0),
    }
}

// The three bytes, as a flags word.
pub fn las_flags_to_three_bytes(flags: u32) -> u32
    ensures { result ≡ three_word (three_bytes_of (flags_of flags)) }
{
    let bytes = words::flags_of(flags).to_three_bytes();
    words::packed(bytes.a, bytes.b, bytes.c, 3)
}

// The flags with the overlap class cleared.
pub fn las_flags_clear_overlap_class(flags: u32) -> u32
    ensures { result ≡ flags_word (cleared_of (flags_of flags)) }
{
    words::flags_word(words::flags_of(flags).clear_overlap_class())
}

// Whether the two have the same three bytes.
pub fn las_flags_eq(flags: u32, other: u32) -> bool
    ensures { result ≡ same_of (flags_of flags) (flags_of other) }
{
    words::flags_of(flags) == words::flags_of(other)
}

// Two zero bytes.
pub fn las_flags_default() -> u32
    ensures { result ≡ flags_word (Flags.TwoByte 0 0) }
{
    words::flags_word(Flags::default())
}

// ---- angles

// The angle of a rank, as an angle word.
pub fn las_angle_rank(rank: i8) -> u32
    ensures { result ≡ angle_word (ScanAngle.Rank rank) }
{
    words::angle_word(ScanAngle::Rank(rank))
}

// The angle of a scaled number, as an angle word.
pub fn las_angle_scaled(scaled: i16) -> u32
    ensures { result ≡ angle_word (ScanAngle.Scaled scaled) }
{
    words::angle_word(ScanAngle::Scaled(scaled))
}

// The nearest whole degree to a scaled number, before it is held.
pub fn las_angle_nearest_rank(scaled: i16) -> i16
    ensures { result ≡ nearest_rank scaled }
{
    angle::nearest_rank(scaled)
}

// The rank.
pub fn las_angle_to_rank(angle: u32) -> i8
    ensures { result ≡ to_rank (angle_of angle) }
{
    words::angle_of(angle).to_rank()
}

// The scaled angle.
pub fn las_angle_to_scaled(angle: u32) -> i16
    ensures { result ≡ to_scaled (angle_of angle) }
{
    words::angle_of(angle).to_scaled()
}

// The angle in degrees.
pub fn las_angle_to_degrees(angle: u32) -> f32
    ensures { result ≡ to_degrees (angle_of angle) }
{
    words::angle_of(angle).to_degrees()
}

// The scaled angle of an f32 in degrees, as an angle word.
pub fn las_angle_from_degrees(degrees: f32) -> u32
    ensures { result ≡ angle_word (from_degrees degrees) }
{
    words::angle_word(ScanAngle::from_degrees(degrees))
}

// Whether the two are the same angle.
pub fn las_angle_eq(angle: u32, other: u32) -> bool
    ensures { result ≡ same_angle (angle_of angle) (angle_of other) }
{
    words::angle_of(angle) == words::angle_of(other)
}

// Rank 0.
pub fn las_angle_default() -> u32
    ensures { result ≡ angle_word (ScanAngle.Rank (pos 0)) }
{
    words::angle_word(ScanAngle::default())
}
