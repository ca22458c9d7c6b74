// The functions of `capi` as C and Rust call them: each calls the function of its name there, and promises the same.
#![tactic(auto)]

ghost use Rattle.std.specs.Prelude.{◌≡◌, pos};
ghost use Rattle.angle.specs.Angle.{nearest_rank, to_rank, to_scaled, to_degrees, from_degrees, same_angle};
ghost use Rattle.flags.specs.Readings.{return_number_of, number_of_returns_of, direction_of, synthetic_of, key_point_of, withheld_of, overlap_of, channel_of, edge_of, class_of};
ghost use Rattle.flags.specs.Bytes.{two_bytes_of, three_bytes_of, cleared_of, same_of};
ghost use Rattle.format.specs.Codes.{format_of, code_of};
ghost use Rattle.format.specs.Fields.{len_of};
ghost use Rattle.format.specs.Format.{extended_of, plain};
ghost use Rattle.words.specs.Words.{angle_of, angle_word, direction_word, flags_of, flags_word, three_word, format_of_word, format_word};
ghost use Rattle.capi.specs.Rows.{new_row, len_row, code_row, two_row};

use angle::ScanAngle;
use flags::Flags;

// The format with this code, as a format word.
#[unsafe(no_mangle)]
pub extern "C" fn las_format_new(code: u8, row: &mut [u64; 3])
    ensures { row.new ≡ new_row (format_of code) }
{
    capi::las_format_new(code, row)
}

// The format extended.
#[unsafe(no_mangle)]
pub extern "C" fn las_format_extend(format: u32) -> u32
    ensures { result ≡ format_word (extended_of (format_of_word format)) }
{
    capi::las_format_extend(format)
}

// The bytes of a record of the format.
#[unsafe(no_mangle)]
pub extern "C" fn las_format_len(format: u32, row: &mut [u64; 3])
    ensures { row.new ≡ len_row (len_of (format_of_word format)) }
{
    capi::las_format_len(format, row)
}

// The format's code.
#[unsafe(no_mangle)]
pub extern "C" fn las_format_to_u8(format: u32, row: &mut [u64; 3])
    ensures { row.new ≡ code_row (code_of (format_of_word format)) }
{
    capi::las_format_to_u8(format, row)
}

// Format 0.
#[unsafe(no_mangle)]
pub extern "C" fn las_format_default() -> u32
    ensures { result ≡ format_word plain }
{
    capi::las_format_default()
}

// The flags of two bytes, as a flags word.
#[unsafe(no_mangle)]
pub extern "C" fn las_flags_two_bytes(a: u8, b: u8) -> u32
    ensures { result ≡ flags_word (Flags.TwoByte a b) }
{
    capi::las_flags_two_bytes(a, b)
}

// The flags of three bytes, as a flags word.
#[unsafe(no_mangle)]
pub extern "C" fn las_flags_three_bytes(a: u8, b: u8, c: u8) -> u32
    ensures { result ≡ flags_word (Flags.ThreeByte a b c) }
{
    capi::las_flags_three_bytes(a, b, c)
}

// The return number.
#[unsafe(no_mangle)]
pub extern "C" fn las_flags_return_number(flags: u32) -> u8
    ensures { result ≡ return_number_of (flags_of flags) }
{
    capi::las_flags_return_number(flags)
}

// The number of returns.
#[unsafe(no_mangle)]
pub extern "C" fn las_flags_number_of_returns(flags: u32) -> u8
    ensures { result ≡ number_of_returns_of (flags_of flags) }
{
    capi::las_flags_number_of_returns(flags)
}

// The scan direction: 0 right to left, 1 left to right.
#[unsafe(no_mangle)]
pub extern "C" fn las_flags_scan_direction(flags: u32) -> u8
    ensures { result ≡ direction_word (direction_of (flags_of flags)) }
{
    capi::las_flags_scan_direction(flags)
}

// Whether the point is synthetic.
#[unsafe(no_mangle)]
pub extern "C" fn las_flags_is_synthetic(flags: u32) -> bool
    ensures { result ≡ synthetic_of (flags_of flags) }
{
    capi::las_flags_is_synthetic(flags)
}

// Whether the point is a key point.
#[unsafe(no_mangle)]
pub extern "C" fn las_flags_is_key_point(flags: u32) -> bool
    ensures { result ≡ key_point_of (flags_of flags) }
{
    capi::las_flags_is_key_point(flags)
}

// Whether the point is withheld.
#[unsafe(no_mangle)]
pub extern "C" fn las_flags_is_withheld(flags: u32) -> bool
    ensures { result ≡ withheld_of (flags_of flags) }
{
    capi::las_flags_is_withheld(flags)
}

// Whether the point is overlap, by the Rust's reading.
#[unsafe(no_mangle)]
pub extern "C" fn las_flags_is_overlap(flags: u32) -> bool
    ensures { result ≡ overlap_of (flags_of flags) }
{
    capi::las_flags_is_overlap(flags)
}

// The scanner channel.
#[unsafe(no_mangle)]
pub extern "C" fn las_flags_scanner_channel(flags: u32) -> u8
    ensures { result ≡ channel_of (flags_of flags) }
{
    capi::las_flags_scanner_channel(flags)
}

// Whether the point is the edge of a flight line.
#[unsafe(no_mangle)]
pub extern "C" fn las_flags_is_edge_of_flight_line(flags: u32) -> bool
    ensures { result ≡ edge_of (flags_of flags) }
{
    capi::las_flags_is_edge_of_flight_line(flags)
}

// The class.
#[unsafe(no_mangle)]
pub extern "C" fn las_flags_class(flags: u32) -> u8
    ensures { result ≡ class_of (flags_of flags) }
{
    capi::las_flags_class(flags)
}

// The two bytes, the first in bits 0 to 7 of the value and the second in bits 8 to 15.
#[unsafe(no_mangle)]
pub extern "C" fn las_flags_to_two_bytes(flags: u32, row: &mut [u64; 3])
    ensures { row.new ≡ two_row (two_bytes_of (flags_of flags)) }
{
    capi::las_flags_to_two_bytes(flags, row)
}

// The three bytes, as a flags word.
#[unsafe(no_mangle)]
pub extern "C" fn las_flags_to_three_bytes(flags: u32) -> u32
    ensures { result ≡ three_word (three_bytes_of (flags_of flags)) }
{
    capi::las_flags_to_three_bytes(flags)
}

// The flags with the overlap class cleared.
#[unsafe(no_mangle)]
pub extern "C" fn las_flags_clear_overlap_class(flags: u32) -> u32
    ensures { result ≡ flags_word (cleared_of (flags_of flags)) }
{
    capi::las_flags_clear_overlap_class(flags)
}

// Whether the two have the same three bytes.
#[unsafe(no_mangle)]
pub extern "C" fn las_flags_eq(flags: u32, other: u32) -> bool
    ensures { result ≡ same_of (flags_of flags) (flags_of other) }
{
    capi::las_flags_eq(flags, other)
}

// Two zero bytes.
#[unsafe(no_mangle)]
pub extern "C" fn las_flags_default() -> u32
    ensures { result ≡ flags_word (Flags.TwoByte 0 0) }
{
    capi::las_flags_default()
}

// The angle of a rank, as an angle word.
#[unsafe(no_mangle)]
pub extern "C" fn las_angle_rank(rank: i8) -> u32
    ensures { result ≡ angle_word (ScanAngle.Rank rank) }
{
    capi::las_angle_rank(rank)
}

// The angle of a scaled number, as an angle word.
#[unsafe(no_mangle)]
pub extern "C" fn las_angle_scaled(scaled: i16) -> u32
    ensures { result ≡ angle_word (ScanAngle.Scaled scaled) }
{
    capi::las_angle_scaled(scaled)
}

// The nearest whole degree to a scaled number, before it is held.
#[unsafe(no_mangle)]
pub extern "C" fn las_angle_nearest_rank(scaled: i16) -> i16
    ensures { result ≡ nearest_rank scaled }
{
    capi::las_angle_nearest_rank(scaled)
}

// The rank.
#[unsafe(no_mangle)]
pub extern "C" fn las_angle_to_rank(angle: u32) -> i8
    ensures { result ≡ to_rank (angle_of angle) }
{
    capi::las_angle_to_rank(angle)
}

// The scaled angle.
#[unsafe(no_mangle)]
pub extern "C" fn las_angle_to_scaled(angle: u32) -> i16
    ensures { result ≡ to_scaled (angle_of angle) }
{
    capi::las_angle_to_scaled(angle)
}

// The angle in degrees.
#[unsafe(no_mangle)]
pub extern "C" fn las_angle_to_degrees(angle: u32) -> f32
    ensures { result ≡ to_degrees (angle_of angle) }
{
    capi::las_angle_to_degrees(angle)
}

// The scaled angle of an f32 in degrees, as an angle word.
#[unsafe(no_mangle)]
pub extern "C" fn las_angle_from_degrees(degrees: f32) -> u32
    ensures { result ≡ angle_word (from_degrees degrees) }
{
    capi::las_angle_from_degrees(degrees)
}

// Whether the two are the same angle.
#[unsafe(no_mangle)]
pub extern "C" fn las_angle_eq(angle: u32, other: u32) -> bool
    ensures { result ≡ same_angle (angle_of angle) (angle_of other) }
{
    capi::las_angle_eq(angle, other)
}

// Rank 0.
#[unsafe(no_mangle)]
pub extern "C" fn las_angle_default() -> u32
    ensures { result ≡ angle_word (ScanAngle.Rank (pos 0)) }
{
    capi::las_angle_default()
}
