// Document 01, "When a file is accepted": the rules that need no more than the header's outline, 2 to 5, and the walk over records
// of rules 6 and 8.
#![tactic(auto)]

ghost use Rattle.std.specs.Prelude.{◌≡◌, ◌+◌, ◌-◌, ◌<◌};
ghost use Rattle.rules.specs.Rules.{first, highest_format, format_bytes, header_rules, too_far, no_length, record_rules};
ghost use Rattle.rules.specs.Steps.{measured_of};
ghost use Rattle.rules.specs.NotAccepted.{not_accepted};

use format::Format;
use outline::Outline;
use refusal::{Refusal, Refused};
use vlr::RecordLength;

// Why a file is not accepted, the number of the record that the refusal speaks of, 0 where it names none, and the number of records
// found whole before it.
#[derive(Clone, Copy)]
pub struct NotAccepted {
    pub refusal: Refusal,
    pub record: u64,
    pub records: u64,
}

// A refusal before the first record.
impl From<Refusal> for NotAccepted {
    ghost use Rattle.rules.specs.NotAccepted.{not_accepted};

    ghost from_gives = { λ refusal found. found ≡ not_accepted refusal 0 0 };

    fn from(refusal: Refusal) -> NotAccepted {
        NotAccepted {
            refusal,
            record: 0,
            records: 0,
        }
    }
}

// To a caller that counts no records.
impl From<NotAccepted> for Refused {
    ghost use Rattle.rules.specs.NotAccepted.{refused_of};

    ghost from_gives = { λ found refused. refused ≡ refused_of found };

    fn from(found: NotAccepted) -> Refused {
        Refused {
            refusal: found.refusal,
            record: found.record,
        }
    }
}

// Rules 2 to 5, in a file of `len` bytes.
pub fn check_header(block: usize, minor: u8, o: Outline, len: usize) -> Result<u64, NotAccepted>
    ensures { result ≡ first (header_rules block minor o len) (Ok 0) }
{
    let f = o.point_data_record_format;
    if (o.header_size as usize) < block {
        return refused(Refusal::HeaderSize(o.header_size), 0);
    }
    if f > 10 {
        if f < 128 {
            return refused(Refusal::Format(f), 0);
        }
        return refused(Refusal::Compressed(f), 0);
    }
    if f > highest_format(minor) {
        return refused(Refusal::FormatForVersion(f), 0);
    }
    if o.point_data_record_length < format_length(f) {
        return refused(Refusal::RecordLength(o.point_data_record_length as u32), 0);
    }
    if o.offset_to_point_data < o.header_size as u32 {
        return refused(Refusal::PointOffset(o.offset_to_point_data), 0);
    }
    if len < o.offset_to_point_data as usize {
        return refused(Refusal::PointOffset(o.offset_to_point_data), 0);
    }
    Ok(0)
}

// `count` records at the start of `rest`, one after the other, after `found` others; each spends one of what those left of the
// allowance.
pub fn check_records(
    rest: &[u8],
    extended: bool,
    allowance: u64,
    found: u32,
    count: u32,
) -> Result<u64, NotAccepted>
    ensures { result ≡ first (record_rules extended allowance found count rest.now) (Ok (found + count)) }
{
    let mut at: usize = 0;
    let mut whole = found as u64;
    let mut allowed = unspent(allowance, whole);
    for _ in 0..count {
        if allowed == 0 {
            return refused_record(Refusal::Allowance(allowance), whole);
        }
        allowed -= 1;
        match measure(&rest[at..], extended) {
            Ok(n) => at += n,
            Err(refusal) => return refused_record(refusal, whole),
        }
        whole += 1;
    }
    Ok(whole)
}

// What is left of an allowance of which some is spent.
fn unspent(allowance: u64, spent: u64) -> u64
    ensures { result ≡ allowance - spent }
{
    if allowance < spent {
        return 0;
    }
    allowance - spent
}

// How many bytes the record at the start of `rest` takes; 11, for an EVLR 13, where it ends too late.
fn measure(rest: &[u8], extended: bool) -> Result<usize, Refusal>
    ensures { result ≡ measured_of extended rest.now }
{
    let Ok(stated) = vlr::stated(rest, extended) else {
        return Err(too_far(no_length(extended)));
    };
    match vlr::measure(rest, extended) {
        Ok(n) => Ok(n),
        Err(_) => Err(too_far(stated)),
    }
}

// 11 or 13 with the length field.
fn too_far(stated: RecordLength) -> Refusal
    ensures { result ≡ too_far stated }
{
    match stated {
        RecordLength::Vlr(n) => Refusal::VlrExtent(n),
        RecordLength::Evlr(n) => Refusal::EvlrExtent(n),
    }
}

// The length 0 of a kind, for a head that ends too late.
fn no_length(extended: bool) -> RecordLength
    ensures { result ≡ no_length extended }
{
    if extended {
        RecordLength::Evlr(0)
    } else {
        RecordLength::Vlr(0)
    }
}

// The highest format of a version.
fn highest_format(minor: u8) -> u8
    ensures { result ≡ highest_format minor }
{
    if minor < 2 {
        return 1;
    }
    if minor < 3 {
        return 3;
    }
    if minor < 4 {
        return 5;
    }
    10
}

// The bytes of a record of a format.
fn format_length(f: u8) -> u16
    requires { f < 11 }
    ensures { result ≡ format_bytes f }
{
    let Ok(format) = Format::new(f) else {
        return 0;
    };
    let Ok(n) = format.len() else {
        return 0;
    };
    n
}

// A refusal that names no record, after `records` whole ones.
pub fn refused(refusal: Refusal, records: u64) -> Result<u64, NotAccepted>
    ensures { result ≡ Err (not_accepted refusal 0 records) }
{
    Err(NotAccepted {
        refusal,
        record: 0,
        records,
    })
}

// A refusal of the record after `records` whole ones.
fn refused_record(refusal: Refusal, records: u64) -> Result<u64, NotAccepted>
    requires { records < 18446744073709551615 }
    ensures { result ≡ Err (not_accepted refusal (records + 1) records) }
{
    Err(NotAccepted {
        refusal,
        record: records + 1,
        records,
    })
}
