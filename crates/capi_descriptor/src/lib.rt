// Descriptors of extra bytes for C and Rust. A descriptor crosses the boundary as nine numbers and three texts:
//   0 to 3    reserved, data type, options, unused
//   4 to 8    no data, min, max, scale, offset, by their bits
//   name (32 bytes), the five deprecated fields one after the other (80), description (32)
// Of a number wider than its field the low bits count, but a type above 10 is refused whatever its width. Rows are those of the
// crate words.
#![tactic(auto)]

ghost use Rattle.std.specs.Prelude.{◌≡◌};
ghost use Rattle.words.specs.Rows.{written_row};
ghost use Rattle.descriptor.specs.Sizes.{size_of};
ghost use Rattle.descriptor.specs.Descriptor.{read_of, written_of};
ghost use Rattle.capi_descriptor.specs.Rows.{numbers_of, deprecated_of, read_row, type_from, descriptor_from};

use descriptor::Descriptor;
use words::{low8, low16, low32, nth};

// The descriptor at the start of s; the row's value is 192, its bytes. Refused, it leaves all but the row.
#[unsafe(no_mangle)]
pub extern "C" fn las_descriptor_read(
    s: &[u8],
    row: &mut [u64; 3],
    numbers: &mut [u64; 9],
    name: &mut [u8; 32],
    deprecated: &mut [u8; 80],
    description: &mut [u8; 32],
)
    ensures { (row.new, (numbers.new, name.new, deprecated.new, description.new)) ≡ read_row (numbers.old, name.old, deprecated.old, description.old) (read_of s.now) }
{
    match Descriptor::read_from(s) {
        Ok(descriptor) => {
            let named = descriptor.name;
            let described = descriptor.description;
            *numbers = numbers_of(descriptor);
            *name = named;
            *deprecated = deprecated_of(descriptor);
            *description = described;
            words::tell(row, 0, 192, 0)
        }
        Err(refusal) => words::refuse(row, refusal, 0),
    }
}

// Writes the descriptor to the front of dst; the row's value is 192, its bytes.
#[unsafe(no_mangle)]
pub extern "C" fn las_descriptor_write(
    numbers: &[u64; 9],
    name: &[u8; 32],
    deprecated: &[u8; 80],
    description: &[u8; 32],
    dst: &mut [u8],
    row: &mut [u64; 3],
)
    ensures { (row.new, dst.new) ≡ written_row (written_of (descriptor_from numbers.now name.now deprecated.now description.now) dst.old) }
{
    let descriptor = descriptor_from(numbers, *name, deprecated, *description);
    match descriptor.write_to(dst) {
        Ok(n) => words::tell(row, 0, n as u64, 0),
        Err(refusal) => words::refuse(row, refusal, 0),
    }
}

// The bytes of a value of a type: of type 0 as many as the options say, of a type above 10 none.
#[unsafe(no_mangle)]
pub extern "C" fn las_descriptor_size(data_type: u8, options: u8) -> u64
    ensures { result ≡ size_of data_type options }
{
    descriptor::size(data_type, options) as u64
}

// A descriptor's numbers.
fn numbers_of(v: Descriptor) -> [u64; 9]
    ensures { result ≡ numbers_of v }
{
    [
        v.reserved as u64,
        v.data_type as u64,
        v.options as u64,
        v.unused as u64,
        v.no_data,
        v.min,
        v.max,
        v.scale,
        v.offset,
    ]
}

// Its deprecated fields, one after the other.
fn deprecated_of(v: Descriptor) -> [u8; 80]
    ensures { result ≡ deprecated_of v }
{
    let mut all = [0u8; 80];
    store::set_bytes(&mut all, 0, &v.deprecated1);
    store::set_bytes(&mut all, 16, &v.deprecated2);
    store::set_bytes(&mut all, 32, &v.deprecated3);
    store::set_bytes(&mut all, 48, &v.deprecated4);
    store::set_bytes(&mut all, 64, &v.deprecated5);
    all
}

// The descriptor of nine numbers and three texts.
fn descriptor_from(
    n: &[u64; 9],
    name: [u8; 32],
    deprecated: &[u8; 80],
    description: [u8; 32],
) -> Descriptor
    ensures { result ≡ descriptor_from n.now name deprecated.now description }
{
    // slices from here on, as `words` and `store` read them
    let n: &[u64] = n;
    let old: &[u8] = deprecated;
    Descriptor {
        reserved: low16(n, 0),
        data_type: type_from(nth(n, 1)),
        options: low8(n, 2),
        name,
        unused: low32(n, 3),
        no_data: nth(n, 4),
        deprecated1: store::bytes_at(old, 0),
        min: nth(n, 5),
        deprecated2: store::bytes_at(old, 16),
        max: nth(n, 6),
        deprecated3: store::bytes_at(old, 32),
        scale: nth(n, 7),
        deprecated4: store::bytes_at(old, 48),
        offset: nth(n, 8),
        deprecated5: store::bytes_at(old, 64),
        description,
    }
}

// A type, held at 255 where it is wider than its field, so that none above 10 is taken for another.
fn type_from(n: u64) -> u8
    ensures { result ≡ type_from n }
{
    if n > 255 { 255 } else { n as u8 }
}
