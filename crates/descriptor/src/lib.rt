// Descriptors of extra bytes: 192 bytes for each attribute that the points of a file have beyond their format, in the VLR with
// user id LASF_Spec and record 4. LAS 1.4 R15, "Extra Bytes"; document 02, No. 8. Every byte is kept, deprecated fields too, and
// numbers that the standard reads by the type (no data, min, max, scale, offset) are their bits as stored.
#![tactic(auto)]

ghost use Rattle.std.specs.Prelude.{◌≡◌, ◌≤◌, length};
ghost use Rattle.fields.specs.Table.{Stored};
ghost use Rattle.descriptor.specs.Layout.{fields, width, place, descriptor_size};
ghost use Rattle.descriptor.specs.Sizes.{size_of};
ghost use Rattle.descriptor.specs.Descriptor.{descriptor_of, no_descriptor, described_of, read_of, field_bytes, written_of};

use refusal::Refusal;

#[derive(Clone, Copy)]
pub struct Descriptor {
    pub reserved: u16,
    pub data_type: u8,
    pub options: u8,
    pub name: [u8; 32],
    pub unused: u32,
    pub no_data: u64,
    pub deprecated1: [u8; 16],
    pub min: u64,
    pub deprecated2: [u8; 16],
    pub max: u64,
    pub deprecated3: [u8; 16],
    pub scale: u64,
    pub deprecated4: [u8; 16],
    pub offset: u64,
    pub deprecated5: [u8; 16],
    pub description: [u8; 32],
}

// A descriptor of zeros.
impl Default for Descriptor {
    ghost is_default = { λ d. d ≡ no_descriptor };

    fn default() -> Descriptor {
        Descriptor {
            reserved: 0,
            data_type: 0,
            options: 0,
            name: [0; 32],
            unused: 0,
            no_data: 0,
            deprecated1: [0; 16],
            min: 0,
            deprecated2: [0; 16],
            max: 0,
            deprecated3: [0; 16],
            scale: 0,
            deprecated4: [0; 16],
            offset: 0,
            deprecated5: [0; 16],
            description: [0; 32],
        }
    }
}

impl Descriptor {
    // Reads the descriptor at the start of `s`, and looks at nothing past its 192 bytes; refuses with 1 where they are not all
    // there, then with 39 where the type is above 10.
    pub fn read_from(s: &[u8]) -> Result<Descriptor, Refusal>
        ensures { result ≡ read_of s.now }
    {
        judge(s)?;
        Ok(contents(s))
    }

    // Writes the descriptor's 192 bytes to the front of `dst`, answers their count and leaves what lies past them. Refuses with 39
    // where the type is above 10, then with 22; a refusal changes nothing.
    pub fn write_to(self, dst: &mut [u8]) -> Result<usize, Refusal>
        ensures { (result, dst.new) ≡ written_of self dst.old }
    {
        if self.data_type > 10 {
            return Err(Refusal::DataType);
        }
        if dst.len() < 192 {
            return Err(Refusal::NoRoom(192));
        }
        store_contents(self, dst);
        Ok(192)
    }
}

// Whether the bytes at the start of `s` are a descriptor.
fn judge(s: &[u8]) -> Result<(), Refusal>
    ensures { result ≡ described_of s.now }
{
    if s.len() < 192 {
        return Err(Refusal::Short(192));
    }
    if le::u8_at(s, 2) > 10 {
        return Err(Refusal::DataType);
    }
    Ok(())
}

// The descriptor at the start of `s`, each field from its place.
fn contents(s: &[u8]) -> Descriptor
    requires { descriptor_size ≤ length s.now }
    ensures { result ≡ descriptor_of s.now }
{
    Descriptor {
        reserved: le::u16_at(s, 0),
        data_type: le::u8_at(s, 2),
        options: le::u8_at(s, 3),
        name: store::bytes_at(s, 4),
        unused: le::u32_at(s, 36),
        no_data: le::u64_at(s, 40),
        deprecated1: store::bytes_at(s, 48),
        min: le::u64_at(s, 64),
        deprecated2: store::bytes_at(s, 72),
        max: le::u64_at(s, 88),
        deprecated3: store::bytes_at(s, 96),
        scale: le::u64_at(s, 112),
        deprecated4: store::bytes_at(s, 120),
        offset: le::u64_at(s, 136),
        deprecated5: store::bytes_at(s, 144),
        description: store::bytes_at(s, 160),
    }
}

// Stores each field at its place.
fn store_contents(v: Descriptor, dst: &mut [u8])
    ensures { Stored width place (field_bytes v) dst.old fields dst.new }
{
    store::set_u16(dst, 0, v.reserved);
    store::set_u8(dst, 2, v.data_type);
    store::set_u8(dst, 3, v.options);
    store::set_bytes(dst, 4, &v.name);
    store::set_u32(dst, 36, v.unused);
    store::set_u64(dst, 40, v.no_data);
    store::set_bytes(dst, 48, &v.deprecated1);
    store::set_u64(dst, 64, v.min);
    store::set_bytes(dst, 72, &v.deprecated2);
    store::set_u64(dst, 88, v.max);
    store::set_bytes(dst, 96, &v.deprecated3);
    store::set_u64(dst, 112, v.scale);
    store::set_bytes(dst, 120, &v.deprecated4);
    store::set_u64(dst, 136, v.offset);
    store::set_bytes(dst, 144, &v.deprecated5);
    store::set_bytes(dst, 160, &v.description);
}

// The bytes of a value of types 1 to 10: u8, i8, u16, i16, u32, i32, u64, i64, f32, f64.
const SIZES: [u8; 10] = [1, 1, 2, 2, 4, 4, 8, 8, 4, 8];

// The bytes of a value of a type: of type 0 as many as the options say, of a type above 10 none.
pub fn size(data_type: u8, options: u8) -> u8
    ensures { result ≡ size_of data_type options }
{
    if data_type == 0 {
        return options;
    }
    if data_type > 10 {
        return 0;
    }
    SIZES[(data_type - 1) as usize]
}
