// The return numbers of a file's points: how many records have each, and how many have one that cannot be. Added by document 02, No. 12.
#![tactic(auto)]

ghost use Rattle.std.specs.Prelude.{◌≡◌, ◌+◌, ◌*◌, ◌≤◌, ◌<◌, length};
ghost use Rattle.format.specs.Fields.{record_bytes};
ghost use Rattle.returns.specs.Returns.{mark_of, is_odd, odd_in, counted_of, survey_at, survey_of};

use format::Format;
use layout::Layout;

// A point's return number, and its number of returns.
#[derive(Clone, Copy)]
pub struct Mark {
    pub number: u8,
    pub of: u8,
}

// How many records have each return number, 0 to 15, and how many have 0 or one above their number of returns.
#[derive(Clone, Copy)]
pub struct Counted {
    pub numbers: [u64; 16],
    pub odd: u64,
}

// The points of a file: whether their format is of 6 to 10, the first byte of the first, the record length, how many there are, and their
// return numbers.
#[derive(Clone, Copy)]
pub struct Survey {
    pub extended: bool,
    pub at: usize,
    pub each: usize,
    pub count: u64,
    pub returns: Counted,
}

// The points of a file, each of which is looked at once. Of a file that the file check refuses, none.
pub fn survey_of(file: &[u8], allowance: u64) -> Survey
    ensures { result ≡ survey_of allowance file.now }
{
    let begun = walker::begin(file, allowance);
    match begun.start {
        Ok(()) => survey_at(file, begun.format, begun.at, begun.count),
        Err(_) => survey_at(file, begun.format, 0, 0),
    }
}

// So many records of a format from this byte on, all of them there.
fn survey_at(file: &[u8], format: Format, at: usize, count: u64) -> Survey
    requires { at + count * record_bytes format ≤ length file.now }
    ensures { result ≡ survey_at format.is_extended at (record_bytes format) count file.now }
{
    let each = Layout::for_format(format).record_len;
    let returns = count_all(&file[at..], format.is_extended, each, count as usize);
    Survey {
        extended: format.is_extended,
        at,
        each,
        count,
        returns,
    }
}

// Whether the point in a record has return number 0, or one above its number of returns.
pub fn is_odd_in(record: &[u8], extended: bool) -> bool
    ensures { result ≡ odd_in extended «record».now }
{
    is_odd(mark_in(record, extended))
}

// n records of m bytes, all of them there.
fn count_all(records: &[u8], extended: bool, m: usize, n: usize) -> Counted
    requires { (0 < m) × (n * m ≤ length records.now) }
    ensures { result ≡ counted_of extended m n records.now }
{
    let mut numbers = [0; 16];
    let mut odd = 0;
    for record in records[..n * m].chunks_exact(m) {
        let mark = mark_in(record, extended);
        let i = mark.number as usize;
        numbers[i] += 1;
        odd += is_odd(mark) as u64;
    }
    Counted { numbers, odd }
}

// The return number and the number of returns of the point in a record: the standard has both in its byte 14.
fn mark_in(record: &[u8], extended: bool) -> Mark
    ensures { result ≡ mark_of extended «record».now }
{
    let byte = le::u8_at(record, 14);
    if extended {
        return Mark {
            number: byte % 16,
            of: byte / 16 % 16,
        };
    }
    Mark {
        number: byte % 8,
        of: byte / 8 % 8,
    }
}

// Whether a return number is 0 or above the number of returns.
fn is_odd(mark: Mark) -> bool
    ensures { result ≡ is_odd mark }
{
    mark.number == 0 || mark.of < mark.number
}
