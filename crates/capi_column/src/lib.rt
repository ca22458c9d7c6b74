// Columns for C and Rust, a function for each: X, Y and Z as whole numbers, by themselves or all three at once, the time as a float or by
// its bits, the colours and near infrared. Rows are those of the crate words, and a row's value is the count of entries filled.
#![tactic(auto)]

ghost use Rattle.std.specs.Prelude.{◌≡◌};
ghost use Rattle.std.specs.Int.{w32};
ghost use Rattle.std.proofs.Common.{to_z};
ghost use Rattle.column.specs.declared.Axis.TheVariants as on;
ghost use Rattle.column.specs.declared.Channel.TheVariants as of;
ghost use Rattle.column.specs.declared.Column.TheVariants as col;
ghost use Rattle.column.specs.Column.{same, real, column_of};
ghost use Rattle.column_xyz.specs.Xyz.{xyz_of};
ghost use Rattle.capi_column.specs.Rows.{filled_row, told_of};

use column::{Axis, Channel};
use refusal::Refused;

// X of a stretch of points, at the front of dst.
pub fn las_column_x(
    file: &[u8],
    allowance: u64,
    first: u64,
    count: u64,
    dst: &mut [i32],
    row: &mut [u64; 3],
)
    ensures { (row.new, dst.new) ≡ told_of (column_of (to_z w32) (col.Axis on.X) allowance first count file.now dst.old) }
{
    axis(file, allowance, Axis::X, first, count, dst, row)
}

// Y of a stretch of points, at the front of dst.
pub fn las_column_y(
    file: &[u8],
    allowance: u64,
    first: u64,
    count: u64,
    dst: &mut [i32],
    row: &mut [u64; 3],
)
    ensures { (row.new, dst.new) ≡ told_of (column_of (to_z w32) (col.Axis on.Y) allowance first count file.now dst.old) }
{
    axis(file, allowance, Axis::Y, first, count, dst, row)
}

// Z of a stretch of points, at the front of dst.
pub fn las_column_z(
    file: &[u8],
    allowance: u64,
    first: u64,
    count: u64,
    dst: &mut [i32],
    row: &mut [u64; 3],
)
    ensures { (row.new, dst.new) ≡ told_of (column_of (to_z w32) (col.Axis on.Z) allowance first count file.now dst.old) }
{
    axis(file, allowance, Axis::Z, first, count, dst, row)
}

// The time of a stretch of points, at the front of dst.
pub fn las_column_time(
    file: &[u8],
    allowance: u64,
    first: u64,
    count: u64,
    dst: &mut [f64],
    row: &mut [u64; 3],
)
    ensures { (row.new, dst.new) ≡ told_of (column_of real col.Time allowance first count file.now dst.old) }
{
    tell(column::f64_column(file, allowance, first, count, dst), row)
}

// Its bits, at the front of dst.
pub fn las_column_time_bits(
    file: &[u8],
    allowance: u64,
    first: u64,
    count: u64,
    dst: &mut [u64],
    row: &mut [u64; 3],
)
    ensures { (row.new, dst.new) ≡ told_of (column_of same col.Time allowance first count file.now dst.old) }
{
    tell(column::u64_column(file, allowance, first, count, dst), row)
}

// Red of a stretch of points, at the front of dst.
pub fn las_column_red(
    file: &[u8],
    allowance: u64,
    first: u64,
    count: u64,
    dst: &mut [u16],
    row: &mut [u64; 3],
)
    ensures { (row.new, dst.new) ≡ told_of (column_of same (col.Channel of.Red) allowance first count file.now dst.old) }
{
    channel(file, allowance, Channel::Red, first, count, dst, row)
}

// Green of a stretch of points, at the front of dst.
pub fn las_column_green(
    file: &[u8],
    allowance: u64,
    first: u64,
    count: u64,
    dst: &mut [u16],
    row: &mut [u64; 3],
)
    ensures { (row.new, dst.new) ≡ told_of (column_of same (col.Channel of.Green) allowance first count file.now dst.old) }
{
    channel(file, allowance, Channel::Green, first, count, dst, row)
}

// Blue of a stretch of points, at the front of dst.
pub fn las_column_blue(
    file: &[u8],
    allowance: u64,
    first: u64,
    count: u64,
    dst: &mut [u16],
    row: &mut [u64; 3],
)
    ensures { (row.new, dst.new) ≡ told_of (column_of same (col.Channel of.Blue) allowance first count file.now dst.old) }
{
    channel(file, allowance, Channel::Blue, first, count, dst, row)
}

// Near infrared of a stretch of points, at the front of dst.
pub fn las_column_nir(
    file: &[u8],
    allowance: u64,
    first: u64,
    count: u64,
    dst: &mut [u16],
    row: &mut [u64; 3],
)
    ensures { (row.new, dst.new) ≡ told_of (column_of same (col.Channel of.Nir) allowance first count file.now dst.old) }
{
    channel(file, allowance, Channel::Nir, first, count, dst, row)
}

// X, Y and Z of a stretch of points in one pass, at the fronts of xs, ys and zs.
pub fn las_columns_xyz(
    file: &[u8],
    allowance: u64,
    first: u64,
    count: u64,
    xs: &mut [i32],
    ys: &mut [i32],
    zs: &mut [i32],
    row: &mut [u64; 3],
)
    ensures { (row.new, (xs.new, ys.new, zs.new)) ≡ told_of (xyz_of allowance first count file.now xs.old ys.old zs.old) }
{
    tell(
        column_xyz::xyz_columns(file, allowance, first, count, xs, ys, zs),
        row,
    )
}

// A column of whole numbers.
fn axis(
    file: &[u8],
    allowance: u64,
    axis: Axis,
    first: u64,
    count: u64,
    dst: &mut [i32],
    row: &mut [u64; 3],
)
    ensures { (row.new, dst.new) ≡ told_of (column_of (to_z w32) (col.Axis axis) allowance first count file.now dst.old) }
{
    tell(
        column::i32_column(file, allowance, axis, first, count, dst),
        row,
    )
}

// A column of colours.
fn channel(
    file: &[u8],
    allowance: u64,
    channel: Channel,
    first: u64,
    count: u64,
    dst: &mut [u16],
    row: &mut [u64; 3],
)
    ensures { (row.new, dst.new) ≡ told_of (column_of same (col.Channel channel) allowance first count file.now dst.old) }
{
    tell(
        column::u16_column(file, allowance, channel, first, count, dst),
        row,
    )
}

// The row of a column, for this crate and for the columns of attributes.
pub fn tell(filled: Result<u64, Refused>, row: &mut [u64; 3])
    ensures { row.new ≡ filled_row filled }
{
    match filled {
        Ok(n) => words::tell(row, 0, n, 0),
        Err(refused) => words::refuse(row, refused.refusal, refused.record),
    }
}
