// A point record, written. `write_to` of src/raw/point.rs of las 0.11.2; a crate of its own, to keep checks short.
#![tactic(auto)]

ghost use Rattle.std.specs.Prelude.{◌≡◌, ◌+◌, ◌≤◌, length};
ghost use Rattle.std.proofs.lemmas.List.Edits.{sets};
ghost use Rattle.fields.specs.Table.{Stored};
ghost use Rattle.format.specs.Fields.{rest_of, size_of, place_of, record_bytes};
ghost use Rattle.point_write.specs.Write.{field_bytes, sized_of, written_of};

use format::Format;
use point::Point;
use refusal::Refusal;

// Writes a point and its extra bytes to the front of dst and answers the count; what lies past it stays. Refused, with nothing
// written: 8 where the format is overlong, 23 where the extra bytes are not as many as the format's, 22 where there is no room,
// and in a legacy format 15 to 18 as the flags' own.
pub fn write_to(
    point: Point,
    extra: &[u8],
    dst: &mut [u8],
    format: Format,
) -> Result<usize, Refusal>
    ensures { (result, dst.new) ≡ written_of format point extra.now dst.old }
{
    match format.len() {
        Ok(n) => write_sized(point, extra, dst, format, n as usize),
        Err(refusal) => Err(refusal),
    }
}

// A point of a format whose record has n bytes.
fn write_sized(
    point: Point,
    extra: &[u8],
    dst: &mut [u8],
    format: Format,
    n: usize,
) -> Result<usize, Refusal>
    requires { n ≡ record_bytes format }
    ensures { (result, dst.new) ≡ sized_of format point extra.now n dst.old }
{
    if extra.len() != format.extra_bytes as usize {
        return Err(Refusal::ExtraBytes(format.extra_bytes));
    }
    if dst.len() < n {
        return Err(Refusal::NoRoom(n as u64));
    }
    if format.is_extended {
        let core = point_bytes::extended_core(point);
        put_at(dst, 0, &core);
        write_rest(point, extra, dst, format);
        return Ok(n);
    }
    let flags = point.flags;
    match flags.to_two_bytes() {
        Ok((a, b)) => {
            let core = point_bytes::legacy_core(point, a, b);
            put_at(dst, 0, &core);
            write_rest(point, extra, dst, format);
            Ok(n)
        }
        Err(refusal) => Err(refusal),
    }
}

// What the format has after the source id, each piece at the table's place for it.
fn write_rest(point: Point, extra: &[u8], dst: &mut [u8], format: Format)
    requires { (length extra.now ≡ format.extra_bytes) × (record_bytes format ≤ length dst.old) }
    ensures { Stored (size_of format) (place_of format) (field_bytes format point extra.now) dst.old (rest_of format) dst.new }
{
    let at = layout::places_for(format);
    if format.has_gps_time {
        let of_time = point.gps_time;
        put_at(dst, at.gps_time, &point_bytes::time_bytes(of_time));
    }
    if format.has_color {
        let of_color = point.color;
        put_at(dst, at.color, &point_bytes::color_bytes(of_color));
    }
    if format.has_nir {
        let of_nir = point.nir;
        put_at(dst, at.nir, &point_bytes::nir_bytes(of_nir));
    }
    if format.has_waveform {
        let of_waveform = point.waveform;
        put_at(dst, at.waveform, &point_bytes::waveform_bytes(of_waveform));
    }
    if extra.len() != 0 {
        put_at(dst, at.extra_bytes, extra);
    }
}

// Some bytes at place at.
fn put_at(dst: &mut [u8], at: usize, bytes: &[u8])
    requires { at + length bytes.now ≤ length dst.old }
    ensures { dst.new ≡ sets dst.old at bytes.now }
{
    let _ = lent::put(&mut dst[at..at + bytes.len()], bytes);
}
