// Whether records offered to a file of version 1.2 are added, are in it already, or are refused. From document 02, No. 1: "An append I
// can repeat". Nothing is written here.
#![tactic(auto)]

ghost use Rattle.std.specs.Prelude.{◌≡◌, ◌+◌, ◌*◌, ◌^◌, ◌≤◌, ◌<◌};
ghost use Rattle.offer.specs.Offer.{counts_fit, no, growing, counted, offered, offer_of};
ghost use Rattle.offer.specs.Laws.{CountsFit};
ghost use Rattle.offer.specs.Steps.{Ready, Counted, Apart, stand_last, Small, total_of, sweep_by};

use header::Header;
use outline::Outline;
use refusal::{Refusal, Refused};
use tally::ByReturn;

// Records that go into a file: where, how many bytes, and the header's counts with them.
#[derive(Clone, Copy)]
pub struct Sweep {
    // The end of the file's points.
    pub at: u64,
    pub bytes: u64,
    pub points: u32,
    // The points of return 1 to 5.
    pub first: u32,
    pub second: u32,
    pub third: u32,
    pub fourth: u32,
    pub fifth: u32,
}

// What is to be done with the records, or why nothing is, with the record number of the file check's refusal.
#[derive(Clone, Copy)]
pub enum Offer {
    Add(Sweep),
    AlreadyIn,
}

// What to do with n records, offered to a file in which `believed` points are believed to stand before them: the file's count is as
// believed, and they are to be added; or it is higher by n and the file's last n records are these bytes, and they are already in.
// Refused as the file check does; then 28 where the version is not 1.2, 29 where n is 0, 1 where there are fewer bytes than n records of
// the file have, 30 where the count is neither, 31 where a count would pass 2^32 - 1, and 22 where they end beyond the file.
pub fn judge(
    file: &[u8],
    allowance: u64,
    records: &[u8],
    n: u64,
    believed: u64,
) -> Result<Offer, Refused>
    ensures { result ≡ offer_of allowance records.now n believed file.now }
{
    let header = file::open(file, allowance)?;
    judge_version(file, header, records, n, believed)
}

// The offer to an accepted file with this header.
fn judge_version(
    file: &[u8],
    h: Header,
    records: &[u8],
    n: u64,
    believed: u64,
) -> Result<Offer, Refused>
    requires { Ready h file.now }
    ensures { result ≡ offered h records.now n believed file.now }
{
    let version = h.version;
    if version.minor != 2 {
        return refused(Refusal::NotVersion12);
    }
    if n == 0 {
        return refused(Refusal::NoRecords);
    }
    let new = tally::count(records, file::point_format(Outline::of(h)), n)?;
    judge_count(file, h, records, n, new, believed)
}

// The offer of n records that are all there, `new` of each return.
fn judge_count(
    file: &[u8],
    h: Header,
    records: &[u8],
    n: u64,
    new: ByReturn,
    believed: u64,
) -> Result<Offer, Refused>
    requires { Counted h records.now n new file.now }
    ensures { result ≡ counted h records.now n believed file.now }
{
    let o = Outline::of(h);
    let each = o.point_data_record_length as u64;
    let count = o.number_of_point_records;
    let end = (o.offset_to_point_data as u64) + count * each;
    let bytes = n * each;
    if count == believed {
        let old = h.number_of_points_by_return;
        return grow(file, end, bytes, count + n, total(old, new));
    }
    if already_in(file, end, bytes, records, n, count, believed) {
        return Ok(Offer::AlreadyIn);
    }
    refused(Refusal::CountNeither)
}

// Whether the count is higher than believed by exactly n, and the last bytes of the points are those of the records.
fn already_in(
    file: &[u8],
    end: u64,
    bytes: u64,
    records: &[u8],
    n: u64,
    count: u64,
    believed: u64,
) -> bool
    requires { Apart end bytes records.now n count believed file.now }
    ensures { result ≡ stand_last end bytes records.now n count believed file.now }
{
    if count < believed {
        return false;
    }
    if count - believed != n {
        return false;
    }
    check::same(
        &file[(end - bytes) as usize..end as usize],
        &records[..bytes as usize],
    )
}

// The records added: refused where a count passes 2^32 - 1, then where they end beyond the file.
fn grow(
    file: &[u8],
    at: u64,
    bytes: u64,
    points: u64,
    by_return: ByReturn,
) -> Result<Offer, Refused>
    requires { at + bytes ≤ 4294967295 + points * 65535 }
    ensures { result ≡ growing (sweep_by at bytes points by_return) file.now }
{
    if !all_fit(points, by_return) {
        return refused(Refusal::CountTooLarge);
    }
    let end = at + bytes;
    if (file.len() as u64) < end {
        return refused(Refusal::NoRoom(end));
    }
    Ok(Offer::Add(sweep_of(at, bytes, points, by_return)))
}

// The header's counts by return with the new ones.
fn total(old: [u32; 5], new: ByReturn) -> ByReturn
    requires { Small new }
    ensures { result ≡ total_of old new }
{
    ByReturn {
        first: sum(old[0], new.first),
        second: sum(old[1], new.second),
        third: sum(old[2], new.third),
        fourth: sum(old[3], new.fourth),
        fifth: sum(old[4], new.fifth),
    }
}

// A count with the new ones.
fn sum(old: u32, new: u64) -> u64
    requires { new < 2 ^ 63 }
    ensures { result ≡ old + new }
{
    (old as u64) + new
}

// Whether no count is over 2^32 - 1.
fn all_fit(points: u64, by_return: ByReturn) -> bool
    ensures { result ≡ counts_fit (sweep_by 0 0 points by_return) }
{
    (points < 4294967296)
        & (by_return.first < 4294967296)
        & (by_return.second < 4294967296)
        & (by_return.third < 4294967296)
        & (by_return.fourth < 4294967296)
        & (by_return.fifth < 4294967296)
}

// The sweep of these numbers, whose counts fit.
fn sweep_of(at: u64, bytes: u64, points: u64, by_return: ByReturn) -> Sweep
    requires { CountsFit (sweep_by at bytes points by_return) }
    ensures { result ≡ sweep_by at bytes points by_return }
{
    Sweep {
        at,
        bytes,
        points: points as u32,
        first: by_return.first as u32,
        second: by_return.second as u32,
        third: by_return.third as u32,
        fourth: by_return.fourth as u32,
        fifth: by_return.fifth as u32,
    }
}

// A refusal that names no record.
fn refused(refusal: Refusal) -> Result<Offer, Refused>
    ensures { result ≡ no refusal }
{
    Err(Refused { refusal, record: 0 })
}
