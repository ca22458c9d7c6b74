// The first VLR of a file with a user id and a record id. From document 02, No. 8 and No. 14: "The first such VLR counts".
#![tactic(auto)]

ghost use Rattle.std.specs.Prelude.{◌≡◌, ◌+◌, ◌≤◌, length, drop};
ghost use Rattle.first_vlr.specs.First.{opened_of, first_from, first_of, is_of};

use outline::Outline;
use refusal::Refused;

// A part of the file: its first byte and its bytes.
#[derive(Clone, Copy)]
pub struct Span {
    pub start: usize,
    pub length: usize,
}

// Judges the file by the file check.
pub fn open(file: &[u8], allowance: u64) -> Result<Outline, Refused>
    ensures { result ≡ opened_of allowance file.now }
{
    let header = file::open(file, allowance)?;
    Ok(Outline::of(header))
}

// The data of the first VLR with this user id, which zeros fill to its 16 bytes, and this record id. An EVLR is never it. A VLR that is
// not all there, as no accepted file has, ends the search.
pub fn first(file: &[u8], o: Outline, user: &[u8], record_id: u16) -> Option<Span>
    ensures { result ≡ first_of o user.now record_id file.now }
{
    let from = o.header_size as usize;
    let to = o.offset_to_point_data as usize;
    if to < from {
        return None;
    }
    if file.len() < to {
        return None;
    }
    let count = o.number_of_variable_length_records;
    first_in(&file[from..to], from, count, user, record_id)
}

// The same of `count` VLRs one after the other at the start of `rest`, which starts at `from` in the file.
fn first_in(rest: &[u8], from: usize, count: u32, user: &[u8], record_id: u16) -> Option<Span>
    requires { from + length rest.now ≤ 18446744073709551615 }
    ensures { result ≡ first_from user.now record_id count from rest.now }
{
    let mut at: usize = 0;
    for _ in 0..count {
        let record = &rest[at..];
        let Ok(n) = vlr::measure(record, false) else {
            return None;
        };
        if is_of(record, user, record_id) {
            return Some(Span {
                start: from + at + 54,
                length: n - 54,
            });
        }
        at += n;
    }
    None
}

// Whether the VLR at the start of `s` has this user id and record id.
fn is_of(s: &[u8], user: &[u8], record_id: u16) -> bool
    requires { 54 ≤ length s.now }
    ensures { result ≡ is_of user.now record_id s.now }
{
    if le::u16_at(s, 18) != record_id {
        return false;
    }
    names::is_named(&s[2..18], user)
}
