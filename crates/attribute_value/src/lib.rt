// The values of an attribute: of one point, or of many. From document 02, No. 8: "give its value in any point with the bits as stored".
#![tactic(auto)]

ghost use Rattle.std.specs.Prelude.{◌≡◌, ◌+◌, ◌*◌, ◌≤◌, ◌<◌, min, leb, length};
ghost use Rattle.column.specs.Column.{same, filled_of};
ghost use Rattle.attribute_value.specs.Value.{lies, placed_of, bytes_of, bits_of};
ghost use Rattle.attribute_value.specs.Many.{Stand, all_lie, column_of};

use attribute::Attribute;
use refusal::{Refusal, Refused};

// Where the value of the point of this number begins, the first being 1. Refused with 27 where there is no such point, and where the
// value would not lie in the file, as it does for every attribute that was found there.
pub fn place(file: &[u8], a: Attribute, point: u64) -> Result<usize, Refusal>
    ensures { result ≡ placed_of a point file.now }
{
    if !lies(file, a, point) {
        return Err(Refusal::Index(a.count));
    }
    Ok(a.at + ((point - 1) as usize) * a.stride)
}

// The value's bytes as that part of the file; none where it is refused.
pub fn bytes(file: &[u8], a: Attribute, point: u64) -> &[u8]
    ensures { result.now ≡ bytes_of a point file.now }
{
    let Ok(from) = place(file, a, point) else {
        return &file[..0];
    };
    let to = from + a.size;
    &file[from..to]
}

// The value's first eight bytes as a number, and all of it where it has no more; 0 where it is refused.
pub fn bits(file: &[u8], a: Attribute, point: u64) -> u64
    ensures { result ≡ bits_of a point file.now }
{
    le::u64_at(bytes(file, a, point), 0)
}

// Whether the value of the point lies in the file. A record has 20 to 65,535 bytes.
fn lies(file: &[u8], a: Attribute, point: u64) -> bool
    ensures { result ≡ lies a point file.now }
{
    if a.stride < 20 {
        return false;
    }
    if a.stride > 65535 {
        return false;
    }
    if point == 0 {
        return false;
    }
    if a.count < point {
        return false;
    }
    if file.len() < a.size {
        return false;
    }
    ends_by(file.len() - a.size, a.at, a.stride, point - 1)
}

// Whether the place that is `n` strides behind `at` is at most `most`; by a division, so nothing wraps.
fn ends_by(most: usize, at: usize, stride: usize, n: u64) -> bool
    requires { 0 < stride }
    ensures { result ≡ leb (at + n * stride) most }
{
    if most < at {
        return false;
    }
    n <= ((most - at) / stride) as u64
}

// The first eight bytes of the values of `count` points from point number `first` on, as numbers, to the front of dst, what lies past
// them staying; the answer is the count. Refused with 27 where they are not all points of the file, or their values do not lie in it;
// then with 22 and the count where dst is shorter; and dst stays as it was.
pub fn column(
    file: &[u8],
    a: Attribute,
    first: u64,
    count: u64,
    dst: &mut [u64],
) -> Result<u64, Refused>
    ensures { (result, dst.new) ≡ column_of a first count file.now dst.old }
{
    if !all_lie(file, a, first, count) {
        return Err(Refusal::Index(a.count).into());
    }
    if (dst.len() as u64) < count {
        return Err(Refusal::NoRoom(count).into());
    }
    if count == 0 {
        return Ok(0);
    }
    let from = a.at + ((first - 1) as usize) * a.stride;
    fill(file, from, a.stride, shown(a.size), count as usize, dst);
    Ok(count)
}

// Whether `count` points from number `first` on are points of the file, and their values lie in it.
fn all_lie(file: &[u8], a: Attribute, first: u64, count: u64) -> bool
    ensures { result ≡ all_lie a first count file.now }
{
    if first == 0 {
        return false;
    }
    if a.count < count {
        return false;
    }
    if a.count - count < first - 1 {
        return false;
    }
    if count == 0 {
        return true;
    }
    lies(file, a, first - 1 + count)
}

// How many bytes of a value a number shows.
fn shown(size: usize) -> usize
    ensures { result ≡ min size 8 }
{
    if size < 8 { size } else { 8 }
}

// The numbers of `width` bytes that stand in s from `first` on, each `stride` bytes after the one before it, to the front of dst, n of them.
// Stays: the width of an attribute is told when the program runs, and that of a column by the type of its entries.
fn fill(s: &[u8], first: usize, stride: usize, width: usize, n: usize, dst: &mut [u64])
    requires { Stand width first stride n s.now × (n ≤ length dst.old) }
    ensures { dst.new ≡ filled_of same width first stride n s.now dst.old }
{
    let mut at = first;
    for i in 0..n {
        let to = at + width;
        dst[i] = le::u64_at(&s[at..to], 0);
        at += stride;
    }
}
