// The functions of `capi_column` as C and Rust call them: each calls the function of its name there, and promises the same.
#![tactic(auto)]

ghost use Rattle.std.specs.Prelude.{◌≡◌};
ghost use Rattle.std.specs.Int.{w32};
ghost use Rattle.std.proofs.Common.{to_z};
ghost use Rattle.column.specs.declared.Axis.TheVariants as on;
ghost use Rattle.column.specs.declared.Channel.TheVariants as of;
ghost use Rattle.column.specs.declared.Column.TheVariants as col;
ghost use Rattle.column.specs.Column.{same, real, column_of};
ghost use Rattle.column_xyz.specs.Xyz.{xyz_of};
ghost use Rattle.capi_column.specs.Rows.{told_of};

// X of a stretch of points, at the front of dst.
#[unsafe(no_mangle)]
pub extern "C" fn las_column_x(
    file: &[u8],
    allowance: u64,
    first: u64,
    count: u64,
    dst: &mut [i32],
    row: &mut [u64; 3],
)
    ensures { (row.new, dst.new) ≡ told_of (column_of (to_z w32) (col.Axis on.X) allowance first count file.now dst.old) }
{
    capi_column::las_column_x(file, allowance, first, count, dst, row)
}

// Y of a stretch of points, at the front of dst.
#[unsafe(no_mangle)]
pub extern "C" fn las_column_y(
    file: &[u8],
    allowance: u64,
    first: u64,
    count: u64,
    dst: &mut [i32],
    row: &mut [u64; 3],
)
    ensures { (row.new, dst.new) ≡ told_of (column_of (to_z w32) (col.Axis on.Y) allowance first count file.now dst.old) }
{
    capi_column::las_column_y(file, allowance, first, count, dst, row)
}

// Z of a stretch of points, at the front of dst.
#[unsafe(no_mangle)]
pub extern "C" fn las_column_z(
    file: &[u8],
    allowance: u64,
    first: u64,
    count: u64,
    dst: &mut [i32],
    row: &mut [u64; 3],
)
    ensures { (row.new, dst.new) ≡ told_of (column_of (to_z w32) (col.Axis on.Z) allowance first count file.now dst.old) }
{
    capi_column::las_column_z(file, allowance, first, count, dst, row)
}

// The time of a stretch of points, at the front of dst.
#[unsafe(no_mangle)]
pub extern "C" fn las_column_time(
    file: &[u8],
    allowance: u64,
    first: u64,
    count: u64,
    dst: &mut [f64],
    row: &mut [u64; 3],
)
    ensures { (row.new, dst.new) ≡ told_of (column_of real col.Time allowance first count file.now dst.old) }
{
    capi_column::las_column_time(file, allowance, first, count, dst, row)
}

// Its bits, at the front of dst.
#[unsafe(no_mangle)]
pub extern "C" fn las_column_time_bits(
    file: &[u8],
    allowance: u64,
    first: u64,
    count: u64,
    dst: &mut [u64],
    row: &mut [u64; 3],
)
    ensures { (row.new, dst.new) ≡ told_of (column_of same col.Time allowance first count file.now dst.old) }
{
    capi_column::las_column_time_bits(file, allowance, first, count, dst, row)
}

// Red of a stretch of points, at the front of dst.
#[unsafe(no_mangle)]
pub extern "C" fn las_column_red(
    file: &[u8],
    allowance: u64,
    first: u64,
    count: u64,
    dst: &mut [u16],
    row: &mut [u64; 3],
)
    ensures { (row.new, dst.new) ≡ told_of (column_of same (col.Channel of.Red) allowance first count file.now dst.old) }
{
    capi_column::las_column_red(file, allowance, first, count, dst, row)
}

// Green of a stretch of points, at the front of dst.
#[unsafe(no_mangle)]
pub extern "C" fn las_column_green(
    file: &[u8],
    allowance: u64,
    first: u64,
    count: u64,
    dst: &mut [u16],
    row: &mut [u64; 3],
)
    ensures { (row.new, dst.new) ≡ told_of (column_of same (col.Channel of.Green) allowance first count file.now dst.old) }
{
    capi_column::las_column_green(file, allowance, first, count, dst, row)
}

// Blue of a stretch of points, at the front of dst.
#[unsafe(no_mangle)]
pub extern "C" fn las_column_blue(
    file: &[u8],
    allowance: u64,
    first: u64,
    count: u64,
    dst: &mut [u16],
    row: &mut [u64; 3],
)
    ensures { (row.new, dst.new) ≡ told_of (column_of same (col.Channel of.Blue) allowance first count file.now dst.old) }
{
    capi_column::las_column_blue(file, allowance, first, count, dst, row)
}

// Near infrared of a stretch of points, at the front of dst.
#[unsafe(no_mangle)]
pub extern "C" fn las_column_nir(
    file: &[u8],
    allowance: u64,
    first: u64,
    count: u64,
    dst: &mut [u16],
    row: &mut [u64; 3],
)
    ensures { (row.new, dst.new) ≡ told_of (column_of same (col.Channel of.Nir) allowance first count file.now dst.old) }
{
    capi_column::las_column_nir(file, allowance, first, count, dst, row)
}

// X, Y and Z of a stretch of points in one pass, at the fronts of xs, ys and zs.
#[unsafe(no_mangle)]
pub extern "C" fn las_columns_xyz(
    file: &[u8],
    allowance: u64,
    first: u64,
    count: u64,
    xs: &mut [i32],
    ys: &mut [i32],
    zs: &mut [i32],
    row: &mut [u64; 3],
)
    ensures { (row.new, (xs.new, ys.new, zs.new)) ≡ told_of (xyz_of allowance first count file.now xs.old ys.old zs.old) }
{
    capi_column::las_columns_xyz(file, allowance, first, count, xs, ys, zs, row)
}
