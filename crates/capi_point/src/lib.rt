// Points for C and Rust. A point crosses the boundary as 24 numbers, floats by their bits:
//   0 to 3    x, y, z (two's complement in 32 bits), intensity
//   4 to 7    flags (a flags word), scan angle (an angle word), user data, source id
//   8, 9      whether there is a time, and its bits
//   10 to 13  whether there is a colour, and red, green, blue
//   14, 15    whether there is near infrared, and it
//   16 to 23  whether there is a waveform, and index, offset, size, location, x_t, y_t, z_t
// A number of a part that is missing is 0 going out and ignored coming in; of a number wider than its field the low bits
// count. Words and rows are those of the crate words.
#![tactic(auto)]

ghost use Rattle.std.specs.Prelude.{◌≡◌, get_or};
ghost use Rattle.words.specs.Words.{format_of_word};
ghost use Rattle.point.specs.Read.{read_of};
ghost use Rattle.point_write.specs.Write.{written_of};
ghost use Rattle.words.specs.Rows.{written_row};
ghost use Rattle.capi_point.specs.Numbers.{has_time, time_bits_of, has_color, color_or, has_nir, nir_or, has_waveform, waveform_or, bits_of, numbers_of, read_row, extra_part, time_from, color_from, nir_from, waveform_from, maybe_waveform_from, point_from};

use le::float::{F32, F64};
use point::{Color, Point, Waveform, WaveformNans};
use words::{low8, low16, low32, nth};

// The point in the first bytes of s, as 24 numbers; where it is refused they stay as they were.
pub fn las_point_read(s: &[u8], format: u32, row: &mut [u64; 3], numbers: &mut [u64; 24])
    ensures { (row.new, numbers.new) ≡ read_row numbers.old (read_of (format_of_word format) s.now) }
{
    match Point::read_from(s, words::format_of(format)) {
        Ok(point) => {
            *numbers = numbers_of(point);
            words::tell(row, 0, 0, 0)
        }
        Err(refusal) => words::refuse(row, refusal, 0),
    }
}

// Where the point's extra bytes start in s, and how many there are; two zeros where there are none, as where the read is refused.
pub fn las_point_extra(s: &[u8], format: u32, part: &mut [u64; 2])
    ensures { part.new ≡ extra_part (format_of_word format) s.now }
{
    let of_word = words::format_of(format);
    let at = layout::places_for(of_word);
    let extra = point::extra_bytes(s, of_word);
    words::tell_part(part, at.extra_bytes as u64, extra.len() as u64)
}

// Writes the point of 24 numbers and its extra bytes to the front of dst; the row's value is the count of bytes.
pub fn las_point_write(
    numbers: &[u64; 24],
    extra: &[u8],
    format: u32,
    dst: &mut [u8],
    row: &mut [u64; 3],
)
    ensures { (row.new, dst.new) ≡ written_row (written_of (format_of_word format) (point_from numbers.now) extra.now dst.old) }
{
    let point = point_from(numbers);
    match point_write::write_to(point, extra, dst, words::format_of(format)) {
        Ok(n) => words::tell(row, 0, n as u64, 0),
        Err(refusal) => words::refuse(row, refusal, 0),
    }
}

// A point's numbers.
pub fn numbers_of(point: Point) -> [u64; 24]
    ensures { result ≡ numbers_of point }
{
    let flags = point.flags;
    let scan_angle = point.scan_angle;
    let gps_time = point.gps_time;
    let maybe_color = point.color;
    let color = color_or(maybe_color);
    let nir = point.nir;
    let maybe_waveform = point.waveform;
    let waveform = waveform_or(maybe_waveform);
    let nans = waveform.nans;
    [
        point.x.cast_unsigned() as u64,
        point.y.cast_unsigned() as u64,
        point.z.cast_unsigned() as u64,
        point.intensity as u64,
        words::flags_word(flags) as u64,
        words::angle_word(scan_angle) as u64,
        point.user_data as u64,
        point.point_source_id as u64,
        has_time(gps_time),
        time_bits(gps_time),
        has_color(maybe_color),
        color.red as u64,
        color.green as u64,
        color.blue as u64,
        has_nir(nir),
        nir_or(nir),
        has_waveform(maybe_waveform),
        waveform.wave_packet_descriptor_index as u64,
        waveform.byte_offset_to_waveform_data,
        waveform.waveform_packet_size_in_bytes as u64,
        float_bits(
            waveform.return_point_waveform_location,
            nans.return_point_waveform_location,
        ),
        float_bits(waveform.x_t, nans.x_t),
        float_bits(waveform.y_t, nans.y_t),
        float_bits(waveform.z_t, nans.z_t),
    ]
}

// The point of 24 numbers.
pub fn point_from(n: &[u64; 24]) -> Point
    ensures { result ≡ point_from n.now }
{
    // a slice from here on, as `words` reads numbers
    let n: &[u64] = n;
    Point {
        x: low32(n, 0).cast_signed(),
        y: low32(n, 1).cast_signed(),
        z: low32(n, 2).cast_signed(),
        intensity: low16(n, 3),
        flags: words::flags_of(low32(n, 4)),
        scan_angle: words::angle_of(low32(n, 5)),
        user_data: low8(n, 6),
        point_source_id: low16(n, 7),
        gps_time: time_from(n),
        color: color_from(n),
        waveform: maybe_waveform_from(n),
        nir: nir_from(n),
    }
}

// What may be missing, going out: whether it is there, and what stands for it where it isn't, as the Rust's defaults.

fn has_time(time: Option<F64>) -> u64
    ensures { result ≡ has_time time }
{
    match time {
        Some(_) => 1,
        None => 0,
    }
}

fn time_bits(time: Option<F64>) -> u64
    ensures { result ≡ time_bits_of time }
{
    match time {
        Some(t) => t.to_bits(),
        None => 0,
    }
}

fn has_color(color: Option<Color>) -> u64
    ensures { result ≡ has_color color }
{
    match color {
        Some(_) => 1,
        None => 0,
    }
}

fn color_or(color: Option<Color>) -> Color
    ensures { result ≡ color_or color }
{
    match color {
        Some(c) => c,
        None => Color {
            red: 0,
            green: 0,
            blue: 0,
        },
    }
}

fn has_nir(nir: Option<u16>) -> u64
    ensures { result ≡ has_nir nir }
{
    match nir {
        Some(_) => 1,
        None => 0,
    }
}

fn nir_or(nir: Option<u16>) -> u64
    ensures { result ≡ nir_or nir }
{
    match nir {
        Some(n) => n as u64,
        None => 0,
    }
}

fn has_waveform(waveform: Option<Waveform>) -> u64
    ensures { result ≡ has_waveform waveform }
{
    match waveform {
        Some(_) => 1,
        None => 0,
    }
}

fn waveform_or(waveform: Option<Waveform>) -> Waveform
    ensures { result ≡ waveform_or waveform }
{
    match waveform {
        Some(w) => w,
        None => waveform_from(
            0,
            0,
            0,
            Bits {
                location: 0,
                x_t: 0,
                y_t: 0,
                z_t: 0,
            },
        ),
    }
}

// The bits of an f32 with its NaN's pattern beside it.
fn float_bits(value: f32, nan: u32) -> u64
    ensures { result ≡ bits_of value nan }
{
    F32 { value, nan }.to_bits() as u64
}

// What may be missing, coming in: any number but 0 says that it is there.

fn time_from(n: &[u64]) -> Option<F64>
    ensures { result ≡ time_from (get_or n.now 8 0) (get_or n.now 9 0) }
{
    if nth(n, 8) == 0 {
        return None;
    }
    Some(F64::from_bits(nth(n, 9)))
}

fn color_from(n: &[u64]) -> Option<Color>
    ensures { result ≡ color_from (get_or n.now 10 0) (get_or n.now 11 0) (get_or n.now 12 0) (get_or n.now 13 0) }
{
    if nth(n, 10) == 0 {
        return None;
    }
    Some(Color {
        red: low16(n, 11),
        green: low16(n, 12),
        blue: low16(n, 13),
    })
}

fn nir_from(n: &[u64]) -> Option<u16>
    ensures { result ≡ nir_from (get_or n.now 14 0) (get_or n.now 15 0) }
{
    if nth(n, 14) == 0 {
        return None;
    }
    Some(low16(n, 15))
}

// The bits of a waveform's four floats.
#[derive(Clone, Copy)]
struct Bits {
    location: u32,
    x_t: u32,
    y_t: u32,
    z_t: u32,
}

fn maybe_waveform_from(n: &[u64]) -> Option<Waveform>
    ensures { result ≡ maybe_waveform_from n.now }
{
    if nth(n, 16) == 0 {
        return None;
    }
    let bits = Bits {
        location: low32(n, 20),
        x_t: low32(n, 21),
        y_t: low32(n, 22),
        z_t: low32(n, 23),
    };
    Some(waveform_from(low8(n, 17), nth(n, 18), low32(n, 19), bits))
}

fn waveform_from(index: u8, offset: u64, size: u32, bits: Bits) -> Waveform
    ensures { result ≡ waveform_from index offset size bits }
{
    let location = F32::from_bits(bits.location);
    let x_t = F32::from_bits(bits.x_t);
    let y_t = F32::from_bits(bits.y_t);
    let z_t = F32::from_bits(bits.z_t);
    let nans = WaveformNans {
        return_point_waveform_location: location.nan,
        x_t: x_t.nan,
        y_t: y_t.nan,
        z_t: z_t.nan,
    };
    Waveform {
        wave_packet_descriptor_index: index,
        byte_offset_to_waveform_data: offset,
        waveform_packet_size_in_bytes: size,
        return_point_waveform_location: location.value,
        x_t: x_t.value,
        y_t: y_t.value,
        z_t: z_t.value,
        nans,
    }
}
