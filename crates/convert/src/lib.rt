// Runs of point records, converted strictly down to an old format and upgraded to a new one, as document 01 adds. A call asks first
// whether the whole run goes, which `judge` answers without a destination, and only then writes its first byte.
#![tactic(auto)]

ghost use Rattle.std.specs.Prelude.{Ok, ◌≡◌, ◌++◌, ◌*◌, ◌≤◌, length, drop};
ghost use Rattle.angle.specs.Angle.{to_scaled};
ghost use Rattle.angle.specs.Table.{scaled_table, to_scaled_in};
ghost use Rattle.point.specs.Read.{point_of};
ghost use Rattle.pairs.specs.Sound.{Sound};
ghost use Rattle.judge.specs.Laws.{Ready};
ghost use Rattle.convert.specs.Run.{turned_of, image_of, images_of, done_of, to_old_of, to_new_of};
ghost use Rattle.convert.specs.Asked.{Takes, TakesRun};

use judge::Run;
use pairs::Plan;
use point::Point;
use refusal::{Refusal, Refused};

// Converts `count` records of a new format, each with `extra` extra bytes, to the old format of its pair, at the front of the
// destination, and leaves what lies past them. Refused, with nothing written, as `judge::ask_old` refuses: 26 where the format has no
// pair; 8 where a record of the source, then of the target, is over 65,535 bytes; 1 where the source is short; 15 to 21 with the
// number of the first record that does not fit; and then 22, with the bytes needed, where the destination is short.
pub fn to_old(
    src: &[u8],
    format: u8,
    extra: u16,
    count: u64,
    dst: &mut [u8],
) -> Result<usize, Refused>
    ensures { (result, dst.new) ≡ to_old_of format extra count src.now dst.old }
{
    let run = judge::ask_old(src, format, extra, count)?;
    convert(src, run, count as usize, false, dst)
}

// Upgrades `count` records of an old format to the new format of its pair, in the same way; no record is refused.
pub fn to_new(
    src: &[u8],
    format: u8,
    extra: u16,
    count: u64,
    dst: &mut [u8],
) -> Result<usize, Refused>
    ensures { (result, dst.new) ≡ to_new_of format extra count src.now dst.old }
{
    let run = judge::ask_new(src, format, extra, count)?;
    convert(src, run, count as usize, true, dst)
}

// A run that goes, written where it has room; `up` says whether it is upgraded.
fn convert(src: &[u8], run: Run, count: usize, up: bool, dst: &mut [u8]) -> Result<usize, Refused>
    requires { Ready up count src.now (Ok run) }
    ensures { (result, dst.new) ≡ done_of up count src.now dst.old (Ok run) }
{
    if dst.len() < run.bytes {
        return Err(Refusal::NoRoom(run.bytes as u64).into());
    }
    write(src, run.plan, count, up, dst);
    Ok(run.bytes)
}

// One record after the other, each into the rest of the destination.
fn write(src: &[u8], plan: Plan, count: usize, up: bool, dst: &mut [u8])
    requires { Sound up plan × (count * plan.source_length ≤ length src.now) × (count * plan.target_length ≤ length dst.old) × TakesRun up plan count src.now }
    ensures { dst.new ≡ images_of up plan count src.now ++ drop (count * plan.target_length) dst.old }
{
    let table = angle::scaled_table();
    let m = plan.source_length;
    let n = plan.target_length;
    // Stays: the places are counted, since each record is written into the tail of `dst` that is lent to its writer.
    let mut at = 0;
    let mut to = 0;
    for _ in 0..count {
        write_record(&src[at..at + m], plan, up, &table, &mut dst[to..]);
        at += m;
        to += n;
    }
}

// A record in the target format: one answer of the point's reader, written by its writer into the rest of the destination. The record
// is whole, so it is not refused, and the else is not reached.
fn write_record(src: &[u8], plan: Plan, up: bool, table: &[i16; 256], dst: &mut [u8])
    requires { Sound up plan × (length src.now ≡ plan.source_length) × (plan.target_length ≤ length dst.old) × Takes plan.target (turned_of up (point_of plan.source src.now)) × (table.now ≡ scaled_table) }
    ensures { dst.new ≡ image_of up plan src.now ++ drop plan.target_length dst.old }
{
    let source = plan.source;
    let target = plan.target;
    let Ok(point) = Point::read_from(src, source) else {
        return;
    };
    let _ = point_write::write_to(
        turned(point, up, table),
        point::extra_bytes(src, source),
        dst,
        target,
    );
}

// The point as it is, or upgraded, by a table that has its angle.
fn turned(point: Point, up: bool, table: &[i16; 256]) -> Point
    requires { to_scaled_in table.now point.scan_angle ≡ to_scaled point.scan_angle }
    ensures { result ≡ turned_of up point }
{
    if up {
        let scan_angle = point.scan_angle;
        return strict::upgraded_to(point, scan_angle.to_scaled_in(table));
    }
    point
}
