// Rewriting: each part of a file is read, and what its reader answers is written to the same place of the destination.
#![tactic(auto)]

ghost use Rattle.std.specs.Prelude.{◌≡◌, ◌++◌, ◌≤◌, length, drop};
ghost use Rattle.cursor.specs.Cursor.{left_of};
ghost use Rattle.rewrite.specs.Rewritten.{back_of, rewritten_of};
ghost use Rattle.rewrite.specs.Back.{header_back, vlr_back, point_back, points_back, part_back};
ghost use Rattle.rewrite.specs.Asked.{Tiles, VlrPart, PointPart, PointsPart, HeaderPart, PartIs};

use cursor::{Cursor, Kind};
use format::Format;
use header::Header;
use outline::Outline;
use point::Point;
use refusal::{Refusal, Refused};
use vlr::Vlr;

// Rewrites a file to the front of the destination and leaves what lies past it: every part is written, in its place, from
// what its reader answers, and gaps are copied. Refuses what the file check refuses, then with 22 and the file's length
// where the destination is shorter; a refusal changes nothing.
pub fn rewrite(file: &[u8], allowance: u64, dst: &mut [u8]) -> Result<usize, Refused>
    ensures { (result, dst.new) ≡ rewritten_of allowance file.now dst.old }
{
    let c = cursor::start(file, allowance)?;
    let n = file.len();
    if dst.len() < n {
        return Err(Refusal::NoRoom(n as u64).into());
    }
    let header = Header::read_from(file)?;
    rewrite_parts(file, Outline::of(header), c, dst);
    Ok(n)
}

// The parts from the cursor on, each into the rest of the destination.
fn rewrite_parts(file: &[u8], o: Outline, c: Cursor, dst: &mut [u8])
    requires { Tiles o file.now 0 (left_of file.now c) × (length file.now ≤ length dst.old) }
    ensures { dst.new ≡ back_of o file.now (left_of file.now c) ++ drop (length file.now) dst.old }
{
    let mut c = c;
    while let Some(step) = cursor::next(file, c) {
        let part = step.part;
        let kind = part.kind;
        let from = part.start as usize;
        let to = from + part.length as usize;
        rewrite_part(kind, &file[from..to], o, &mut dst[from..]);
        c = step.next;
    }
}

// A part of a kind, to the front of the destination; what lies past it stays.
fn rewrite_part(kind: Kind, src: &[u8], o: Outline, dst: &mut [u8])
    requires { PartIs o kind src.now × (length src.now ≤ length dst.old) }
    ensures { dst.new ≡ part_back o kind src.now ++ drop (length src.now) dst.old }
{
    match kind {
        Kind::Header => rewrite_header(src, dst),
        Kind::Vlr => rewrite_vlr(src, false, dst),
        Kind::Gap => copy_gap(src, dst),
        Kind::Points => {
            let record_length = o.point_data_record_length as usize;
            let count = o.number_of_point_records as usize;
            rewrite_points(src, file::point_format(o), record_length, count, dst)
        }
        Kind::Evlr => rewrite_vlr(src, true, dst),
        Kind::Waveform => rewrite_vlr(src, true, dst),
    }
}

// The bytes of a gap, as they are.
fn copy_gap(src: &[u8], dst: &mut [u8])
    requires { length src.now ≤ length dst.old }
    ensures { dst.new ≡ src.now ++ drop (length src.now) dst.old }
{
    let _ = lent::put(dst, src);
}

// The header and its padding, written from what their readers answer. A whole header is not refused, so the else is not
// reached.
fn rewrite_header(src: &[u8], dst: &mut [u8])
    requires { HeaderPart src.now × (length src.now ≤ length dst.old) }
    ensures { dst.new ≡ header_back src.now ++ drop (length src.now) dst.old }
{
    let Ok(header) = Header::read_from(src) else {
        return;
    };
    let _ = header_write::write_to(header, header::padding(src), dst);
}

// A VLR, or an EVLR or the waveform packets, and its data, written from what their readers answer. A whole record is not
// refused, so the else is not reached.
fn rewrite_vlr(src: &[u8], extended: bool, dst: &mut [u8])
    requires { VlrPart extended src.now × (length src.now ≤ length dst.old) }
    ensures { dst.new ≡ vlr_back extended src.now ++ drop (length src.now) dst.old }
{
    let Ok(vlr) = Vlr::read_from(src, extended) else {
        return;
    };
    let _ = vlr_write::write_to(vlr, vlr::data(src, extended), dst);
}

// One record after the other, each into the rest of the destination.
fn rewrite_points(src: &[u8], format: Format, record_length: usize, count: usize, dst: &mut [u8])
    requires { PointsPart format record_length count src.now × (length src.now ≤ length dst.old) }
    ensures { dst.new ≡ points_back format record_length count src.now ++ drop (length src.now) dst.old }
{
    // Stays: the place is counted, since each record is written into the tail of `dst` that is lent to its writer.
    let mut at = 0;
    for _ in 0..count {
        let next = at + record_length;
        rewrite_point(&src[at..next], format, &mut dst[at..]);
        at = next;
    }
}

// A point and its extra bytes, written from what their readers answer. A whole record is not refused, so the else is not
// reached.
fn rewrite_point(src: &[u8], format: Format, dst: &mut [u8])
    requires { PointPart format src.now × (length src.now ≤ length dst.old) }
    ensures { dst.new ≡ point_back format src.now ++ drop (length src.now) dst.old }
{
    let Ok(point) = Point::read_from(src, format) else {
        return;
    };
    let _ = point_write::write_to(point, point::extra_bytes(src, format), dst, format);
}
