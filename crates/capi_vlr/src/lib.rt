// VLRs and EVLRs for C and Rust. A record's head crosses the boundary as three numbers, its reserved number, its record id
// and the length that it states, and beside them its user id and its description. Of a reserved number or a record id wider than
// its field the low bits count; a length wider than its field is refused. Rows are those of the crate words.
#![tactic(auto)]

ghost use Rattle.std.specs.Prelude.{◌≡◌, false, get_or};
ghost use Rattle.vlr.specs.Layout.{head_size};
ghost use Rattle.vlr.specs.Vlr.{stated_of, extent_of, no_vlr, read_of};
ghost use Rattle.capi_vlr.specs.Rows.{numbers_of, lent_of, read_row, extent_row, stated_row, data_part, overlong, length_from, vlr_from, write_row};

use refusal::Refusal;
use vlr::{RecordLength, Vlr};

// The head of the record at the start of s; the row's value is the bytes of the record, head and data. Where it is refused
// the numbers, the user id and the description stay as they were.
pub fn las_vlr_read(
    s: &[u8],
    extended: bool,
    row: &mut [u64; 3],
    numbers: &mut [u64; 3],
    user_id: &mut [u8; 16],
    description: &mut [u8; 32],
)
    ensures { (row.new, numbers.new, user_id.new, description.new) ≡ read_row (extent_of extended s.now) (read_of extended s.now) numbers.old user_id.old description.old }
{
    las_vlr_measure(s, extended, row);
    if let Ok(vlr) = Vlr::read_from(s, extended) {
        *numbers = numbers_of(vlr);
        let user = vlr.user_id;
        *user_id = user;
        let described = vlr.description;
        *description = described;
    }
}

// Where the record's data starts in s, and how many bytes it has; two zeros where there is none, as where the read is refused.
pub fn las_vlr_data(s: &[u8], extended: bool, part: &mut [u64; 2])
    ensures { part.new ≡ data_part extended s.now }
{
    let data = vlr::data(s, extended);
    words::tell_part(part, las_vlr_head_size(extended), data.len() as u64)
}

// Writes the record and its data to the front of dst; the row's value is the count of bytes. A VLR's stated length that has more
// than 16 bits is refused with 24, as is one that the data has not.
pub fn las_vlr_write(
    extended: bool,
    numbers: &[u64; 3],
    user_id: &[u8; 16],
    description: &[u8; 32],
    data: &[u8],
    dst: &mut [u8],
    row: &mut [u64; 3],
)
    ensures { (row.new, dst.new) ≡ write_row extended numbers.now user_id.now description.now «data».now dst.old }
{
    if overlong(extended, numbers[2]) {
        words::refuse(row, Refusal::VlrDataLength(numbers[2]), 0);
        return;
    }
    let vlr = vlr_from(extended, numbers, user_id, description);
    match vlr_write::write_to(vlr, data, dst) {
        Ok(n) => words::tell(row, 0, n as u64, 0),
        Err(refusal) => words::refuse(row, refusal, 0),
    }
}

// How many bytes the record at the start of s takes, head and data, without reading the rest of its head.
pub fn las_vlr_measure(s: &[u8], extended: bool, row: &mut [u64; 3])
    ensures { row.new ≡ extent_row (extent_of extended s.now) }
{
    match vlr::measure(s, extended) {
        Ok(n) => words::tell(row, 0, n as u64, 0),
        Err(refusal) => words::refuse(row, refusal, 0),
    }
}

// The bytes of a head.
pub fn las_vlr_head_size(extended: bool) -> u64
    ensures { result ≡ head_size extended }
{
    vlr::head_size(extended) as u64
}

// The length that the head at the start of s states; refused with 1 where the head is not all there.
pub fn las_vlr_stated(s: &[u8], extended: bool, row: &mut [u64; 3])
    ensures { row.new ≡ stated_row (stated_of extended s.now) }
{
    match vlr::stated(s, extended) {
        Ok(stated) => words::tell(row, 0, stated.to_u64(), 0),
        Err(refusal) => words::refuse(row, refusal, 0),
    }
}

// The Rust's default record.
pub fn las_vlr_default(numbers: &mut [u64; 3], user_id: &mut [u8; 16], description: &mut [u8; 32])
    ensures { (numbers.new, user_id.new, description.new) ≡ lent_of no_vlr }
{
    let vlr = Vlr::default();
    *numbers = numbers_of(vlr);
    let user = vlr.user_id;
    *user_id = user;
    let described = vlr.description;
    *description = described;
}

// A record's numbers.
fn numbers_of(vlr: Vlr) -> [u64; 3]
    ensures { result ≡ numbers_of vlr }
{
    let stated = vlr.record_length_after_header;
    [vlr.reserved as u64, vlr.record_id as u64, stated.to_u64()]
}

// The record of three numbers, a user id and a description.
fn vlr_from(extended: bool, n: &[u64; 3], user_id: &[u8; 16], description: &[u8; 32]) -> Vlr
    requires { overlong extended (get_or n.now 2 0) ≡ false }
    ensures { result ≡ vlr_from extended n.now user_id.now description.now }
{
    Vlr {
        reserved: (n[0] % 65536) as u16,
        user_id: *user_id,
        record_id: (n[1] % 65536) as u16,
        record_length_after_header: length_from(extended, n[2]),
        description: *description,
    }
}

// Whether a stated length is too long for its field: 16 bits in a VLR, 64 in an EVLR.
fn overlong(extended: bool, n: u64) -> bool
    ensures { result ≡ overlong extended n }
{
    if extended { false } else { n > 65535 }
}

// The stated length of a head.
fn length_from(extended: bool, n: u64) -> RecordLength
    requires { overlong extended n ≡ false }
    ensures { result ≡ length_from extended n }
{
    if extended {
        RecordLength::Evlr(n)
    } else {
        RecordLength::Vlr(n as u16)
    }
}
