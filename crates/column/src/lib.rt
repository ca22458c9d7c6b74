// Columns: one field of many points, each number taken straight from its place in its record. Added by document 02, No. 6.
#![tactic(auto)]

ghost use Rattle.std.specs.Prelude.{◌≡◌, ◌+◌, ◌*◌, ◌^◌, ◌≤◌, ◌<◌, ℕ, length};
ghost use Rattle.std.specs.Int.{w32};
ghost use Rattle.std.proofs.Common.{to_z};
ghost use Rattle.le.specs.Le.{num};
ghost use Rattle.format.specs.Fields.{record_bytes};
ghost use Rattle.column.specs.Column.{width_of, same, real, has_in, place_in, within, stretch_in, stretch_of, filled_of, column_of, Lie};

use format::Format;
use layout::Layout;
use refusal::{Refusal, Refused};

// The fields of four bytes, signed.
#[derive(Clone, Copy)]
pub enum Axis {
    X,
    Y,
    Z,
}

// The fields of two bytes.
#[derive(Clone, Copy)]
pub enum Channel {
    Red,
    Green,
    Blue,
    Nir,
}

// A field that there are columns of; the time has eight bytes.
#[derive(Clone, Copy)]
pub enum Column {
    Axis(Axis),
    Time,
    Channel(Channel),
}

// Where the numbers of a column stand in the file: the first at `at`, each other `stride` bytes after the one before it.
#[derive(Clone, Copy)]
pub struct Stretch {
    pub at: usize,
    pub stride: usize,
    pub count: usize,
}

// What a buffer has an entry of for each point: a number of `WIDTH` bytes in its record, and `value` tells what is made of it.
trait Entry: Copy {
    ghost WIDTH: { ℕ };

    ghost value: { ℕ → Self };

    const WIDTH: usize;

    // The entry of the number at the start of `part`.
    fn read(part: &[u8]) -> Self
        ensures { result ≡ value (num WIDTH 0 part.now) };
}

impl Entry for i32 {
    ghost WIDTH = { 4 };

    ghost value = { to_z w32 };

    const WIDTH: usize = 4;

    fn read(part: &[u8]) -> i32 {
        le::i32_at(part, 0)
    }
}

impl Entry for u16 {
    ghost WIDTH = { 2 };

    ghost value = { same };

    const WIDTH: usize = 2;

    fn read(part: &[u8]) -> u16 {
        le::u16_at(part, 0)
    }
}

impl Entry for u64 {
    ghost WIDTH = { 8 };

    ghost value = { same };

    const WIDTH: usize = 8;

    fn read(part: &[u8]) -> u64 {
        le::u64_at(part, 0)
    }
}

// Of a NaN the float says only that it is one.
impl Entry for f64 {
    ghost WIDTH = { 8 };

    ghost value = { real };

    const WIDTH: usize = 8;

    fn read(part: &[u8]) -> f64 {
        le::f64_at(part, 0).value
    }
}

// X, Y or Z of `count` points from point number `first` on, the first point being 1, to the front of dst, what lies past them
// staying; the answer is the count. Refused as `stretch_of` says, and dst stays as it was.
pub fn i32_column(
    file: &[u8],
    allowance: u64,
    axis: Axis,
    first: u64,
    count: u64,
    dst: &mut [i32],
) -> Result<u64, Refused>
    ensures { (result, dst.new) ≡ column_of (to_z w32) (Column.Axis axis) allowance first count file.now dst.old }
{
    read_column(file, allowance, Column::Axis(axis), first, count, dst)
}

// Red, green, blue or near infrared, as above.
pub fn u16_column(
    file: &[u8],
    allowance: u64,
    channel: Channel,
    first: u64,
    count: u64,
    dst: &mut [u16],
) -> Result<u64, Refused>
    ensures { (result, dst.new) ≡ column_of same (Column.Channel channel) allowance first count file.now dst.old }
{
    read_column(file, allowance, Column::Channel(channel), first, count, dst)
}

// The time by its bits, as above: every pattern is kept.
pub fn u64_column(
    file: &[u8],
    allowance: u64,
    first: u64,
    count: u64,
    dst: &mut [u64],
) -> Result<u64, Refused>
    ensures { (result, dst.new) ≡ column_of same Column.Time allowance first count file.now dst.old }
{
    read_column(file, allowance, Column::Time, first, count, dst)
}

// The time as a float, as above: of a NaN's pattern it says only that it is a NaN's.
pub fn f64_column(
    file: &[u8],
    allowance: u64,
    first: u64,
    count: u64,
    dst: &mut [f64],
) -> Result<u64, Refused>
    ensures { (result, dst.new) ≡ column_of real Column.Time allowance first count file.now dst.old }
{
    read_column(file, allowance, Column::Time, first, count, dst)
}

// Any column, as above, whose numbers have as many bytes as the entries are made of.
fn read_column<T: Entry>(
    file: &[u8],
    allowance: u64,
    column: Column,
    first: u64,
    count: u64,
    dst: &mut [T],
) -> Result<u64, Refused>
    requires { T.WIDTH ≡ width_of column }
    ensures { (result, dst.new) ≡ column_of T.value column allowance first count file.now dst.old }
{
    let stretch = stretch_of(file, allowance, column, first, count, dst.len())?;
    fill(file, stretch.at, stretch.stride, stretch.count, dst);
    Ok(count)
}

// The stretch of `count` points from point number `first` on, for a buffer of `room` entries. Refused with the file check's
// refusal; 36 where the points' format lacks the field; 27 with the point count where they are not all points of the file; 22
// with the count where the room is less.
pub fn stretch_of(
    file: &[u8],
    allowance: u64,
    column: Column,
    first: u64,
    count: u64,
    room: usize,
) -> Result<Stretch, Refused>
    ensures { result ≡ stretch_of allowance column first count room file.now }
{
    let begun = walker::begin(file, allowance);
    begun.start?;
    stretch_in(
        begun.format,
        begun.at,
        begun.count,
        column,
        first,
        count,
        room,
    )
}

// The same of an accepted file, whose points of this format start at `at`.
fn stretch_in(
    format: Format,
    at: usize,
    points: u64,
    column: Column,
    first: u64,
    count: u64,
    room: usize,
) -> Result<Stretch, Refused>
    requires { at + points * record_bytes format < 2 ^ 63 }
    ensures { result ≡ stretch_in format at points column first count room }
{
    if !has(format, column) {
        return Err(Refusal::FieldLacking.into());
    }
    if !within(first, count, points) {
        return Err(Refusal::Index(points).into());
    }
    if (room as u64) < count {
        return Err(Refusal::NoRoom(count).into());
    }
    let stride = Layout::for_format(format).record_len;
    Ok(Stretch {
        at: at + ((first - 1) as usize) * stride + place_in(format, column),
        stride,
        count: count as usize,
    })
}

// Whether `count` points from point number `first` on are points of the file.
fn within(first: u64, count: u64, points: u64) -> bool
    ensures { result ≡ within first count points }
{
    1 <= first && first - 1 <= points && count <= points - (first - 1)
}

// Whether a format has the field.
fn has(format: Format, column: Column) -> bool
    ensures { result ≡ has_in format column }
{
    match column {
        Column::Axis(_) => true,
        Column::Time => format.has_gps_time,
        Column::Channel(Channel::Nir) => format.has_nir,
        Column::Channel(_) => format.has_color,
    }
}

// Where it stands in a record of the format.
fn place_in(format: Format, column: Column) -> usize
    ensures { result ≡ place_in format column }
{
    let at = layout::places_for(format);
    match column {
        Column::Axis(Axis::X) => 0,
        Column::Axis(Axis::Y) => 4,
        Column::Axis(Axis::Z) => 8,
        Column::Time => at.gps_time,
        Column::Channel(Channel::Red) => at.color,
        Column::Channel(Channel::Green) => at.color + 2,
        Column::Channel(Channel::Blue) => at.color + 4,
        Column::Channel(Channel::Nir) => at.nir,
    }
}

// The numbers that stand in s from `first` on, each `stride` bytes after the one before it, to the front of dst, n of them. The
// part that is read is as long as a number, so that its reader tests no length.
fn fill<T: Entry>(s: &[u8], first: usize, stride: usize, n: usize, dst: &mut [T])
    requires { Lie T.WIDTH first stride n s.now × (n ≤ length dst.old) }
    ensures { dst.new ≡ filled_of T.value T.WIDTH first stride n s.now dst.old }
{
    let mut at = first;
    for i in 0..n {
        let to = at + T::WIDTH;
        dst[i] = T::read(&s[at..to]);
        at += stride;
    }
}
