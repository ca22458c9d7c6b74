// X, Y and Z of many points in one pass over their records, for document 02, No. 7: what the three columns of the crate column leave.
#![tactic(auto)]

ghost use Rattle.std.specs.Prelude.{◌≡◌, ◌≤◌, length};
ghost use Rattle.column.specs.Column.{Lie};
ghost use Rattle.column_xyz.specs.Xyz.{filled_xyz, xyz_of};

use column::{Axis, Column};
use refusal::Refused;

// X, Y and Z of `count` points from point number `first` on, the first point being 1, to the front of xs, ys and zs, what lies past
// them staying; the answer is the count. Refused with the file check's refusal; 27 with the point count where they are not all points
// of the file; 22 with the count where one of the three is shorter; and all three stay as they were.
pub fn xyz_columns(
    file: &[u8],
    allowance: u64,
    first: u64,
    count: u64,
    xs: &mut [i32],
    ys: &mut [i32],
    zs: &mut [i32],
) -> Result<u64, Refused>
    ensures { (result, (xs.new, ys.new, zs.new)) ≡ xyz_of allowance first count file.now xs.old ys.old zs.old }
{
    let room = xs.len().min(ys.len()).min(zs.len());
    let stretch = column::stretch_of(file, allowance, Column::Axis(Axis::X), first, count, room)?;
    fill(file, stretch.at, stretch.stride, stretch.count, xs, ys, zs);
    Ok(count)
}

// Three numbers one after the other, n times, from `first` on and each time `stride` bytes further: the first of them to xs, the others
// to ys and zs. The part that is read is as long as the three, so that their reader tests no length.
// Stays: one part of the file gives three numbers, where a column's fill takes one from each.
fn fill(
    s: &[u8],
    first: usize,
    stride: usize,
    n: usize,
    xs: &mut [i32],
    ys: &mut [i32],
    zs: &mut [i32],
)
    requires { Lie 12 first stride n s.now × (n ≤ length xs.old) × (n ≤ length ys.old) × (n ≤ length zs.old) }
    ensures { (xs.new, ys.new, zs.new) ≡ filled_xyz first stride n s.now xs.old ys.old zs.old }
{
    let mut at = first;
    for i in 0..n {
        let to = at + 12;
        let part = &s[at..to];
        xs[i] = le::i32_at(part, 0);
        ys[i] = le::i32_at(part, 4);
        zs[i] = le::i32_at(part, 8);
        at += stride;
    }
}
