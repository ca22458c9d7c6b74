// A point record, read. From src/raw/point.rs of las 0.11.2: `Waveform`, `Point`, `read_from`, and `Color` from its color.rs.
#![tactic(auto)]

pub mod marks;

ghost use Rattle.std.specs.Prelude.{◌≡◌, cond, [], ◌+◌, ◌≤◌, ltb, length, take, drop};
ghost use Rattle.format.specs.Fields.{record_bytes};
ghost use Rattle.point.specs.Read.{field_of, flags_at, angle_at, time_at, color_at, nir_at, waveform_at, maybe_waveform_at, point_of, sized_of, read_of, extra_of, no_point};

use angle::ScanAngle;
use flags::Flags;
use format::{Field, Format};
use le::float::F64;
use refusal::Refusal;

#[derive(Clone, Copy)]
pub struct Color {
    pub red: u16,
    pub green: u16,
    pub blue: u16,
}

// The patterns of a waveform's floats where they are NaNs, and 0 elsewhere.
#[derive(Clone, Copy)]
pub struct WaveformNans {
    pub return_point_waveform_location: u32,
    pub x_t: u32,
    pub y_t: u32,
    pub z_t: u32,
}

#[derive(Clone, Copy)]
pub struct Waveform {
    pub wave_packet_descriptor_index: u8,
    pub byte_offset_to_waveform_data: u64,
    pub waveform_packet_size_in_bytes: u32,
    pub return_point_waveform_location: f32,
    pub x_t: f32,
    pub y_t: f32,
    pub z_t: f32,
    pub nans: WaveformNans,
}

// A point without its extra bytes, which stay in the caller's slice. The source id stands before the flags, unlike in the Rust: so
// flags and angle are eight bytes that overlap with nothing of a refusal, and stay in a register where a point is read and written.
#[derive(Clone, Copy)]
pub struct Point {
    pub x: i32,
    pub y: i32,
    pub z: i32,
    pub intensity: u16,
    pub point_source_id: u16,
    pub flags: Flags,
    pub scan_angle: ScanAngle,
    pub user_data: u8,
    pub gps_time: Option<F64>,
    pub color: Option<Color>,
    pub waveform: Option<Waveform>,
    pub nir: Option<u16>,
}

impl Point {
    // The point in the first bytes of s; refused 8 where the format is overlong, then 1 where bytes are lacking.
    pub fn read_from(s: &[u8], format: Format) -> Result<Point, Refusal>
        ensures { result ≡ read_of format s.now }
    {
        let n = format.len()?;
        read_sized(s, format, n as usize)
    }
}

// All zero, with two-byte flags and a rank, and nothing that may be missing.
impl Default for Point {
    ghost is_default = { λ p. p ≡ no_point };

    fn default() -> Point {
        Point {
            x: 0,
            y: 0,
            z: 0,
            intensity: 0,
            flags: Flags::default(),
            scan_angle: ScanAngle::default(),
            user_data: 0,
            point_source_id: 0,
            gps_time: None,
            color: None,
            waveform: None,
            nir: None,
        }
    }
}

// The point's extra bytes, as a part of s; none where the read is refused.
pub fn extra_bytes(s: &[u8], format: Format) -> &[u8]
    ensures { result.now ≡ extra_of format s.now }
{
    match format.len() {
        Ok(n) => extra_sized(s, format, n as usize),
        Err(_) => &s[..0],
    }
}

// The point of a format whose record has n bytes.
fn read_sized(s: &[u8], format: Format, n: usize) -> Result<Point, Refusal>
    requires { n ≡ record_bytes format }
    ensures { result ≡ sized_of format n s.now }
{
    if s.len() < n {
        return Err(Refusal::Short(n as u64));
    }
    Ok(read_whole(s, format))
}

// The fields of a record, each at the format's place for it.
fn read_whole(s: &[u8], format: Format) -> Point
    requires { record_bytes format ≤ length s.now }
    ensures { result ≡ point_of format s.now }
{
    let at = layout::places_for(format);
    Point {
        x: le::i32_at(s, 0),
        y: le::i32_at(s, 4),
        z: le::i32_at(s, 8),
        intensity: le::u16_at(s, 12),
        flags: flags_at(s, format.is_extended),
        scan_angle: angle_at(s, format.is_extended),
        user_data: le::u8_at(s, 17),
        point_source_id: le::u16_at(s, at.point_source_id),
        gps_time: time_at(s, format.has_gps_time, at.gps_time),
        color: color_at(s, format.has_color, at.color),
        waveform: waveform_at(s, format.has_waveform, at.waveform),
        nir: nir_at(s, format.has_nir, at.nir),
    }
}

// The extra bytes of a record of n bytes, which are its last.
fn extra_sized(s: &[u8], format: Format, n: usize) -> &[u8]
    requires { n ≡ record_bytes format }
    ensures { result.now ≡ cond (ltb (length s.now) n) [] (field_of format Field.ExtraBytes s.now) }
{
    if s.len() < n {
        return &s[..0];
    }
    let at = layout::places_for(format).extra_bytes;
    &s[at..n]
}

// The flags: three bytes in extended formats, else two.
fn flags_at(s: &[u8], is_extended: bool) -> Flags
    ensures { result ≡ flags_at is_extended 14 s.now }
{
    let a = le::u8_at(s, 14);
    let b = le::u8_at(s, 15);
    if is_extended {
        return Flags::ThreeByte(a, b, le::u8_at(s, 16));
    }
    Flags::TwoByte(a, b)
}

// The angle: scaled in extended formats, else a rank.
fn angle_at(s: &[u8], is_extended: bool) -> ScanAngle
    ensures { result ≡ angle_at is_extended (cond is_extended 18 16) s.now }
{
    if is_extended {
        return ScanAngle::Scaled(le::i16_at(s, 18));
    }
    ScanAngle::Rank(le::i8_at(s, 16))
}

// The n bytes of s from a place on. What reads them then tests no length: the compiler knows this one.
fn part_at(s: &[u8], at: usize, n: usize) -> &[u8]
    requires { at + n ≤ length s.now }
    ensures { result.now ≡ take n (drop at s.now) }
{
    &s[at..at + n]
}

// The time, where the format has it.
fn time_at(s: &[u8], has: bool, at: usize) -> Option<F64>
    requires { at + cond has 8 0 ≤ length s.now }
    ensures { result ≡ time_at has at s.now }
{
    if has {
        let part = part_at(s, at, 8);
        return Some(le::f64_at(part, 0));
    }
    None
}

// The colour, where the format has it.
fn color_at(s: &[u8], has: bool, at: usize) -> Option<Color>
    requires { at + cond has 6 0 ≤ length s.now }
    ensures { result ≡ color_at has at s.now }
{
    if has {
        let part = part_at(s, at, 6);
        return Some(Color {
            red: le::u16_at(part, 0),
            green: le::u16_at(part, 2),
            blue: le::u16_at(part, 4),
        });
    }
    None
}

// The near infrared, where the format has it: 0 is a number like any other.
fn nir_at(s: &[u8], has: bool, at: usize) -> Option<u16>
    ensures { result ≡ nir_at has at s.now }
{
    if has {
        return Some(le::u16_at(s, at));
    }
    None
}

// The waveform, where the format has it.
fn waveform_at(s: &[u8], has: bool, at: usize) -> Option<Waveform>
    requires { at + cond has 29 0 ≤ length s.now }
    ensures { result ≡ maybe_waveform_at has at s.now }
{
    if has {
        let part = part_at(s, at, 29);
        return Some(Waveform::read_from(part));
    }
    None
}

impl Waveform {
    // The waveform in the first bytes of s; a byte past the end counts as 0.
    fn read_from(s: &[u8]) -> Waveform
        ensures { result ≡ waveform_at 0 s.now }
    {
        let location = le::f32_at(s, 13);
        let x_t = le::f32_at(s, 17);
        let y_t = le::f32_at(s, 21);
        let z_t = le::f32_at(s, 25);
        let nans = WaveformNans {
            return_point_waveform_location: location.nan,
            x_t: x_t.nan,
            y_t: y_t.nan,
            z_t: z_t.nan,
        };
        Waveform {
            wave_packet_descriptor_index: le::u8_at(s, 0),
            byte_offset_to_waveform_data: le::u64_at(s, 1),
            waveform_packet_size_in_bytes: le::u32_at(s, 9),
            return_point_waveform_location: location.value,
            x_t: x_t.value,
            y_t: y_t.value,
            z_t: z_t.value,
            nans,
        }
    }
}
