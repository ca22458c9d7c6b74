// Variable length records and extended ones: a head of 54 or 60 bytes, then as many bytes of data as the head states.
// From src/raw/vlr.rs of las 0.11.2; the data is a part of the caller's bytes and no field.
#![tactic(auto)]

ghost use Rattle.std.specs.Prelude.{◌≡◌, ◌≤◌, length};
ghost use Rattle.vlr.specs.declared.RecordLength.TheVariants as kind;
ghost use Rattle.vlr.specs.Layout.{Description, place, head_size};
ghost use Rattle.vlr.specs.Vlr.{data_length, length_of, stated_of, vlr_of, no_vlr, extent_of, read_of, data_of};

use refusal::Refusal;

// The length of the data: a u16 in a VLR, a u64 in an EVLR.
#[derive(Clone, Copy)]
pub enum RecordLength {
    Vlr(u16),
    Evlr(u64),
}

#[derive(Clone, Copy)]
pub struct Vlr {
    pub reserved: u16,
    pub user_id: [u8; 16],
    pub record_id: u16,
    pub record_length_after_header: RecordLength,
    pub description: [u8; 32],
}

impl RecordLength {
    // The length as a number.
    pub fn to_u64(self) -> u64
        ensures { result ≡ data_length self }
    {
        match self {
            RecordLength::Vlr(n) => n as u64,
            RecordLength::Evlr(n) => n,
        }
    }
}

// No data, in a VLR.
impl Default for RecordLength {
    ghost is_default = { λ n. n ≡ kind.Vlr 0 };

    fn default() -> RecordLength {
        RecordLength::Vlr(0)
    }
}

// A VLR of zeros without data.
impl Default for Vlr {
    ghost is_default = { λ v. v ≡ no_vlr };

    fn default() -> Vlr {
        Vlr {
            reserved: 0,
            user_id: [0; 16],
            record_id: 0,
            record_length_after_header: RecordLength::default(),
            description: [0; 32],
        }
    }
}

impl Vlr {
    // Reads the VLR, or EVLR, at the start of `s`; refuses with 1 where its head or its data is not all there.
    pub fn read_from(s: &[u8], extended: bool) -> Result<Vlr, Refusal>
        ensures { result ≡ read_of extended s.now }
    {
        measure(s, extended)?;
        Ok(head(s, extended))
    }
}

// The data of the VLR, or EVLR, at the start of `s`, as that part of `s`; nothing where the record is refused.
pub fn data(s: &[u8], extended: bool) -> &[u8]
    ensures { result.now ≡ data_of extended s.now }
{
    let Ok(end) = measure(s, extended) else {
        return &s[..0];
    };
    let start = head_size(extended);
    &s[start..end]
}

// How many bytes the record at the start of `s` takes; 1 where they are not all there.
pub fn measure(s: &[u8], extended: bool) -> Result<usize, Refusal>
    ensures { result ≡ extent_of extended s.now }
{
    let content = stated(s, extended)?.to_u64();
    let head = head_size(extended);
    if ((s.len() - head) as u64) < content {
        let wanted = (head as u64).checked_add(content).unwrap_or(0);
        return Err(Refusal::Short(wanted));
    }
    Ok(head + content as usize)
}

// The bytes of a head.
pub fn head_size(extended: bool) -> usize
    ensures { result ≡ head_size extended }
{
    if extended { 60 } else { 54 }
}

// Where the description starts.
fn description_place(extended: bool) -> usize
    ensures { result ≡ place extended Description }
{
    if extended { 28 } else { 22 }
}

// The length that the head at the start of `s` states; refuses with 1 and the head's size where the head is not all there.
pub fn stated(s: &[u8], extended: bool) -> Result<RecordLength, Refusal>
    ensures { result ≡ stated_of extended s.now }
{
    let head = head_size(extended);
    if s.len() < head {
        return Err(Refusal::Short(head as u64));
    }
    Ok(length_field(s, extended))
}

// The length field of a head; a byte past the end counts as 0.
fn length_field(s: &[u8], extended: bool) -> RecordLength
    ensures { result ≡ length_of extended s.now }
{
    if extended {
        RecordLength::Evlr(le::u64_at(s, 20))
    } else {
        RecordLength::Vlr(le::u16_at(s, 20))
    }
}

// The head at the start of `s`.
fn head(s: &[u8], extended: bool) -> Vlr
    requires { head_size extended ≤ length s.now }
    ensures { result ≡ vlr_of extended s.now }
{
    let record_length_after_header = length_field(s, extended);
    let at = description_place(extended);
    Vlr {
        reserved: le::u16_at(s, 0),
        user_id: store::bytes_at(s, 2),
        record_id: le::u16_at(s, 18),
        record_length_after_header,
        description: store::bytes_at(s, at),
    }
}
