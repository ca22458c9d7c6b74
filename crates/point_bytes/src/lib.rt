// The bytes of a point record's parts: those before the time, the time, the colour, the near infrared and the waveform.
#![tactic(auto)]

ghost use Rattle.std.specs.Prelude.{◌≡◌};
ghost use Rattle.std.specs.Float.{binary32};
ghost use Rattle.le.specs.Le.{bytes};
ghost use Rattle.le.specs.Real.{pattern_of};
ghost use Rattle.point_bytes.specs.Bytes.{time_bytes, color_bytes, nir_bytes, waveform_bytes, waveform_of, core_of, legacy_core_of};

use le::float::{F32, F64};
use point::{Color, Point, Waveform};

// The bytes before the time in an extended format.
pub fn extended_core(point: Point) -> [u8; 22]
    ensures { result ≡ core_of point }
{
    let [xa, xb, xc, xd] = point.x.to_le_bytes();
    let [ya, yb, yc, yd] = point.y.to_le_bytes();
    let [za, zb, zc, zd] = point.z.to_le_bytes();
    let [ia, ib] = point.intensity.to_le_bytes();
    let flags = point.flags.to_three_bytes();
    let user_data = point.user_data;
    let [aa, ab] = point.scan_angle.to_scaled().to_le_bytes();
    let [sa, sb] = point.point_source_id.to_le_bytes();
    [
        xa, xb, xc, xd, ya, yb, yc, yd, za, zb, zc, zd, ia, ib, flags.a, flags.b, flags.c,
        user_data, aa, ab, sa, sb,
    ]
}

// The bytes before the time in a legacy format, with its two bytes of flags.
pub fn legacy_core(point: Point, a: u8, b: u8) -> [u8; 20]
    ensures { result ≡ legacy_core_of point a b }
{
    let [xa, xb, xc, xd] = point.x.to_le_bytes();
    let [ya, yb, yc, yd] = point.y.to_le_bytes();
    let [za, zb, zc, zd] = point.z.to_le_bytes();
    let [ia, ib] = point.intensity.to_le_bytes();
    let rank = point.scan_angle.to_rank().cast_unsigned();
    let user_data = point.user_data;
    let [sa, sb] = point.point_source_id.to_le_bytes();
    [
        xa, xb, xc, xd, ya, yb, yc, yd, za, zb, zc, zd, ia, ib, a, b, rank, user_data, sa, sb,
    ]
}

// A missing time, colour, near infrared or waveform is zero bits.

pub fn time_bytes(time: Option<F64>) -> [u8; 8]
    ensures { result ≡ time_bytes time }
{
    match time {
        Some(t) => t.to_bits().to_le_bytes(),
        None => [0; 8],
    }
}

pub fn color_bytes(color: Option<Color>) -> [u8; 6]
    ensures { result ≡ color_bytes color }
{
    match color {
        Some(c) => {
            let [ra, rb] = c.red.to_le_bytes();
            let [ga, gb] = c.green.to_le_bytes();
            let [ba, bb] = c.blue.to_le_bytes();
            [ra, rb, ga, gb, ba, bb]
        }
        None => [0; 6],
    }
}

pub fn nir_bytes(nir: Option<u16>) -> [u8; 2]
    ensures { result ≡ nir_bytes nir }
{
    match nir {
        Some(n) => n.to_le_bytes(),
        None => [0; 2],
    }
}

pub fn waveform_bytes(waveform: Option<Waveform>) -> [u8; 29]
    ensures { result ≡ waveform_bytes waveform }
{
    match waveform {
        Some(w) => some_waveform_bytes(w),
        None => [0; 29],
    }
}

fn some_waveform_bytes(w: Waveform) -> [u8; 29]
    ensures { result ≡ waveform_of w }
{
    let index = w.wave_packet_descriptor_index;
    let [oa, ob, oc, od, oe, of, og, oh] = w.byte_offset_to_waveform_data.to_le_bytes();
    let [sa, sb, sc, sd] = w.waveform_packet_size_in_bytes.to_le_bytes();
    let nans = w.nans;
    let [la, lb, lc, ld] = float_bytes(
        w.return_point_waveform_location,
        nans.return_point_waveform_location,
    );
    let [xa, xb, xc, xd] = float_bytes(w.x_t, nans.x_t);
    let [ya, yb, yc, yd] = float_bytes(w.y_t, nans.y_t);
    let [za, zb, zc, zd] = float_bytes(w.z_t, nans.z_t);
    [
        index, oa, ob, oc, od, oe, of, og, oh, sa, sb, sc, sd, la, lb, lc, ld, xa, xb, xc, xd, ya,
        yb, yc, yd, za, zb, zc, zd,
    ]
}

// The bytes of an f32 with its NaN's pattern beside it.
fn float_bytes(value: f32, nan: u32) -> [u8; 4]
    ensures { result ≡ bytes 4 (pattern_of binary32 value nan) }
{
    F32 { value, nan }.to_bits().to_le_bytes()
}
