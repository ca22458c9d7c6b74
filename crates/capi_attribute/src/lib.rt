// Attributes of the extra bytes for C and Rust, and the first VLR with a user id and a record id. An attribute crosses the boundary as
// five numbers: its type, the bytes of a value, where the first point's stands in the file, how far the next point's is from there, and
// the points of the file. A place among the attributes is five too, which the caller keeps: the next descriptor, how many are left, where
// the first point's next value stands, and again how far the next point's is and the points. Of a type wider than its field the low bits
// count. Rows are those of the crate words.
#![tactic(auto)]

ghost use Rattle.std.specs.Prelude.{◌≡◌};
ghost use Rattle.first_vlr.specs.First.{opened_of};
ghost use Rattle.attribute.specs.Attributes.{begun_of};
ghost use Rattle.attribute.specs.Find.{found_of};
ghost use Rattle.attribute_value.specs.Many.{column_of};
ghost use Rattle.capi_column.specs.Rows.{told_of};
ghost use Rattle.capi_attribute.specs.Rows.{attribute_numbers, attribute_from, place_numbers, place_from, begun_row, next_row, found_row, value_row, first_by, first_row};

use attribute::{Attribute, Attributes};
use first_vlr::Span;

// The place before the first attribute of the file; the row's value is how many there are. A refusal leaves the place.
#[unsafe(no_mangle)]
pub extern "C" fn las_attributes(
    file: &[u8],
    allowance: u64,
    attributes: &mut [u64; 5],
    row: &mut [u64; 3],
)
    ensures { (row.new, attributes.new) ≡ begun_row attributes.old (begun_of allowance file.now) }
{
    match attribute::begin(file, allowance) {
        Ok(c) => {
            *attributes = place_numbers(c);
            words::tell(row, 0, c.left as u64, 0)
        }
        Err(refused) => words::refuse(row, refused.refusal, refused.record),
    }
}

// Whether there is an attribute at the place: then its numbers, where its descriptor stands in the file, and the place after it; else all
// three stay as they were.
#[unsafe(no_mangle)]
pub extern "C" fn las_attributes_next(
    file: &[u8],
    attributes: &mut [u64; 5],
    attribute: &mut [u64; 5],
    span: &mut [u64; 2],
) -> bool
    ensures { (result, attributes.new, attribute.new, span.new) ≡ next_row file.now attributes.old attribute.old span.old }
{
    let Some(step) = attribute::next(file, place_from(attributes)) else {
        return false;
    };
    *attributes = place_numbers(step.next);
    *attribute = attribute_numbers(step.attribute);
    *span = [step.descriptor as u64, 192];
    true
}

// The first attribute with this name. A refusal leaves the attribute.
#[unsafe(no_mangle)]
pub extern "C" fn las_attribute_find(
    file: &[u8],
    allowance: u64,
    name: &[u8],
    attribute: &mut [u64; 5],
    row: &mut [u64; 3],
)
    ensures { (row.new, attribute.new) ≡ found_row attribute.old (found_of allowance name.now file.now) }
{
    match attribute::find(file, allowance, name) {
        Ok(a) => {
            *attribute = attribute_numbers(a);
            words::tell(row, 0, 0, 0)
        }
        Err(refused) => words::refuse(row, refused.refusal, refused.record),
    }
}

// Where the attribute's value in the point of this number stands in the file, the first being 1; the row's value is its first eight bytes as
// a number. A refusal leaves the span.
#[unsafe(no_mangle)]
pub extern "C" fn las_attribute_value(
    file: &[u8],
    attribute: &[u64; 5],
    point: u64,
    span: &mut [u64; 2],
    row: &mut [u64; 3],
)
    ensures { (row.new, span.new) ≡ value_row span.old (attribute_from attribute.now) point file.now }
{
    let a = attribute_from(attribute);
    match attribute_value::place(file, a, point) {
        Ok(at) => {
            *span = [at as u64, a.size as u64];
            words::tell(row, 0, attribute_value::bits(file, a, point), 0)
        }
        Err(refusal) => words::refuse(row, refusal, 0),
    }
}

// The same numbers of a stretch of points, at the front of dst; the row's value is the count of entries filled.
#[unsafe(no_mangle)]
pub extern "C" fn las_attribute_column(
    file: &[u8],
    attribute: &[u64; 5],
    first: u64,
    count: u64,
    dst: &mut [u64],
    row: &mut [u64; 3],
)
    ensures { (row.new, dst.new) ≡ told_of (column_of (attribute_from attribute.now) first count file.now dst.old) }
{
    let a = attribute_from(attribute);
    capi_column::tell(attribute_value::column(file, a, first, count, dst), row)
}

// Where the data of the first VLR with this user id and record id stands in the file; the row's value is 1 where there is one, and else 0,
// which leaves the span, as a refusal does.
#[unsafe(no_mangle)]
pub extern "C" fn las_vlr_first(
    file: &[u8],
    allowance: u64,
    user: &[u8],
    record_id: u16,
    span: &mut [u64; 2],
    row: &mut [u64; 3],
)
    ensures { (row.new, span.new) ≡ first_row user.now record_id file.now span.old (opened_of allowance file.now) }
{
    match first_vlr::open(file, allowance) {
        Ok(o) => tell_first(first_vlr::first(file, o, user, record_id), span, row),
        Err(refused) => words::refuse(row, refused.refusal, refused.record),
    }
}

// What there is of such a VLR in an accepted file.
fn tell_first(first: Option<Span>, span: &mut [u64; 2], row: &mut [u64; 3])
    ensures { (row.new, span.new) ≡ first_by span.old first }
{
    match first {
        Some(part) => {
            *span = [part.start as u64, part.length as u64];
            words::tell(row, 0, 1, 0)
        }
        None => words::tell(row, 0, 0, 0),
    }
}

// An attribute's numbers.
fn attribute_numbers(a: Attribute) -> [u64; 5]
    ensures { result ≡ attribute_numbers a }
{
    [
        a.data_type as u64,
        a.size as u64,
        a.at as u64,
        a.stride as u64,
        a.count,
    ]
}

// The attribute of five numbers.
fn attribute_from(n: &[u64; 5]) -> Attribute
    ensures { result ≡ attribute_from n.now }
{
    Attribute {
        data_type: (n[0] % 256) as u8,
        size: n[1] as usize,
        at: n[2] as usize,
        stride: n[3] as usize,
        count: n[4],
    }
}

// A place's numbers.
fn place_numbers(c: Attributes) -> [u64; 5]
    ensures { result ≡ place_numbers c }
{
    [
        c.descriptor as u64,
        c.left as u64,
        c.at as u64,
        c.stride as u64,
        c.count,
    ]
}

// The place of five numbers.
fn place_from(n: &[u64; 5]) -> Attributes
    ensures { result ≡ place_from n.now }
{
    Attributes {
        descriptor: n[0] as usize,
        left: n[1] as usize,
        at: n[2] as usize,
        stride: n[3] as usize,
        count: n[4],
    }
}
