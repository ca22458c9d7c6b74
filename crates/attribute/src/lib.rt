// Attributes: the values that the extra bytes of every point of a file hold, as descriptors say, one after the other. From document 02,
// No. 8: "Extra bytes by name".
#![tactic(auto)]

ghost use Rattle.std.specs.Prelude.{◌≡◌, ◌+◌, ◌*◌, ◌≤◌, leb, length};
ghost use Rattle.attribute.specs.Attributes.{size_at, types_known, sizes_of, described_in, begun_in, begun_of, next_of};
ghost use Rattle.attribute.specs.Find.{Ready, named_from, searched_in, found_of};

use outline::Outline;
use refusal::{Refusal, Refused};

// A value of every point: its type, 0 to 10, and its bytes; where the first point's stands in the file, and how far the next point's is
// from there; the points of the file.
#[derive(Clone, Copy)]
pub struct Attribute {
    pub data_type: u8,
    pub size: usize,
    pub at: usize,
    pub stride: usize,
    pub count: u64,
}

// A place among the attributes of a file: its next descriptor, how many are left, and where the first point's value of the next stands.
#[derive(Clone, Copy)]
pub struct Attributes {
    pub descriptor: usize,
    pub left: usize,
    pub at: usize,
    pub stride: usize,
    pub count: u64,
}

// An attribute, where its descriptor stands in the file, and the place after it.
#[derive(Clone, Copy)]
pub struct Step {
    pub attribute: Attribute,
    pub descriptor: usize,
    pub next: Attributes,
}

// Among some descriptors, where one with a name stands, and the bytes of the values before its own.
#[derive(Clone, Copy)]
struct Named {
    descriptor: usize,
    place: usize,
}

// The place before the first attribute of the file. Refused with the file check's refusal; 37 where no VLR has the descriptors; 38 where
// its data is not a multiple of 192 bytes; 39 where one of them has a type above 10; 40 where all their values together are longer than
// the extra bytes.
pub fn begin(file: &[u8], allowance: u64) -> Result<Attributes, Refused>
    ensures { result ≡ begun_of allowance file.now }
{
    let o = first_vlr::open(file, allowance)?;
    begin_in(file, o)
}

// The same of an accepted file with this outline.
fn begin_in(file: &[u8], o: Outline) -> Result<Attributes, Refused>
    ensures { result ≡ begun_in o file.now }
{
    let Some(span) = first_vlr::first(file, o, b"LASF_Spec", 4) else {
        return Err(Refusal::NoDescriptors.into());
    };
    judge(&file[span.start..span.start + span.length], span.start, o)
}

// The same by the data of the VLR, which starts there in the file.
fn judge(data: &[u8], start: usize, o: Outline) -> Result<Attributes, Refused>
    ensures { result ≡ described_in o start «data».now }
{
    if data.len() % 192 != 0 {
        return Err(Refusal::DescriptorBytes.into());
    }
    let count = data.len() / 192;
    if !types_known(data, count) {
        return Err(Refusal::DataType.into());
    }
    let format = file::point_format(o);
    if !sizes_fit(data, count, format.extra_bytes as usize) {
        return Err(Refusal::AttributeSizes.into());
    }
    let at = (o.offset_to_point_data as usize) + layout::places_for(format).extra_bytes;
    Ok(Attributes {
        descriptor: start,
        left: count,
        at,
        stride: o.point_data_record_length as usize,
        count: o.number_of_point_records,
    })
}

// Whether all of `count` descriptors have a type that is known.
fn types_known(data: &[u8], count: usize) -> bool
    requires { count * 192 ≤ length «data».now }
    ensures { result ≡ types_known count «data».now }
{
    for i in 0..count {
        if le::u8_at(data, i * 192 + 2) > 10 {
            return false;
        }
    }
    true
}

// Whether the bytes of their values together are at most `room`.
fn sizes_fit(data: &[u8], count: usize, room: usize) -> bool
    requires { count * 192 ≤ length «data».now }
    ensures { result ≡ leb (sizes_of count «data».now) room }
{
    let mut room = room;
    for i in 0..count {
        let size = size_at(data, i * 192);
        if room < size {
            return false;
        }
        room -= size;
    }
    true
}

// The bytes of a value that the descriptor at `at` describes.
fn size_at(s: &[u8], at: usize) -> usize
    requires { at + 3 ≤ 18446744073709551615 }
    ensures { (result ≡ size_at at s.now) × (result ≤ 255) }
{
    descriptor::size(le::u8_at(s, at + 2), le::u8_at(s, at + 3)) as usize
}

// The attribute at the place, and the place after it. After the last, and at a place that no file has, there is none.
pub fn next(file: &[u8], c: Attributes) -> Option<Step>
    ensures { result ≡ next_of file.now c }
{
    let descriptor = c.descriptor;
    if c.left == 0 {
        return None;
    }
    if file.len() < 192 {
        return None;
    }
    if file.len() - 192 < descriptor {
        return None;
    }
    if c.at > 9223372036854775807 {
        return None;
    }
    let size = size_at(file, descriptor);
    Some(Step {
        attribute: Attribute {
            data_type: le::u8_at(file, descriptor + 2),
            size,
            at: c.at,
            stride: c.stride,
            count: c.count,
        },
        descriptor,
        next: Attributes {
            descriptor: descriptor + 192,
            left: c.left - 1,
            at: c.at + size,
            stride: c.stride,
            count: c.count,
        },
    })
}

// The first attribute with this name, which zeros fill to 32 bytes. Refused as `begin` says, then with 41 where there is none.
pub fn find(file: &[u8], allowance: u64, name: &[u8]) -> Result<Attribute, Refused>
    ensures { result ≡ found_of allowance name.now file.now }
{
    let c = begin(file, allowance)?;
    search(file, c, name)
}

// The same from a place in the file on.
fn search(file: &[u8], c: Attributes, name: &[u8]) -> Result<Attribute, Refused>
    requires { Ready c file.now }
    ensures { result ≡ searched_in name.now c file.now }
{
    let from = c.descriptor;
    let to = from + c.left * 192;
    let Some(named) = named_in(&file[from..to], c.left, name) else {
        return Err(Refusal::NameNotFound.into());
    };
    let at = from + named.descriptor;
    Ok(Attribute {
        data_type: le::u8_at(file, at + 2),
        size: size_at(file, at),
        at: c.at + named.place,
        stride: c.stride,
        count: c.count,
    })
}

// The first of `count` descriptors with this name.
fn named_in(data: &[u8], count: usize, name: &[u8]) -> Option<Named>
    requires { (count * 192 ≤ length «data».now) × (sizes_of count «data».now ≤ 65535) }
    ensures { result ≡ named_from name.now count 0 0 «data».now }
{
    let mut place: usize = 0;
    for i in 0..count {
        let at = i * 192;
        let from = at + 4;
        let to = at + 36;
        if names::is_named(&data[from..to], name) {
            return Some(Named {
                descriptor: at,
                place,
            });
        }
        place += size_at(data, at);
    }
    None
}
