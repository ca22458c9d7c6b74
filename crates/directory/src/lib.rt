// The directory of a file's coordinate keys: numbers of two bytes, four in front and four for each key. Added by document 02, No. 14.
#![tactic(auto)]

ghost use Rattle.std.specs.Prelude.{◌≡◌};
ghost use Rattle.directory.specs.Directory.{entry_of, rising_at, known, record_for, bytes_of, there, within, passes, every, judged_of, place_of, key_of};

use refusal::Refusal;

// What a directory says of a key: the record that its value stands in, 0 where it is no other, how many there are, and the index of the
// first or the value itself.
#[derive(Clone, Copy)]
pub struct Entry {
    pub key: u16,
    pub location: u16,
    pub count: u16,
    pub index: u16,
}

// What is asked of each entry of a directory.
#[derive(Clone, Copy)]
pub enum Question {
    Rising,
    Known,
    There,
    Within,
}

// A directory judged, with the records that its values stand in. Refused, each for the whole directory: 43 where it is shorter than its
// keys, 44 where a key is not above the one before it, 45 where a location is not 0, 34736 or 34737, 46 where the record of a location
// is absent, 47 where a value ends beyond its record.
pub fn judge(directory: &[u8], doubles: Option<usize>, text: Option<usize>) -> Result<u16, Refusal>
    ensures { result ≡ judged_of directory.now doubles text }
{
    let n = le::u16_at(directory, 6);
    // Eight bytes in front and eight for each key, so that one of less than eight is short too.
    if directory.len() < 8 + 8 * (n as usize) {
        return Err(Refusal::DirectoryShort);
    }
    if !all_pass(directory, n, Question::Rising, doubles, text) {
        return Err(Refusal::KeysNotRising);
    }
    if !all_pass(directory, n, Question::Known, doubles, text) {
        return Err(Refusal::UnknownLocation);
    }
    if !all_pass(directory, n, Question::There, doubles, text) {
        return Err(Refusal::TargetAbsent);
    }
    if !all_pass(directory, n, Question::Within, doubles, text) {
        return Err(Refusal::TargetBeyond);
    }
    Ok(n)
}

// Whether each of n entries passes.
fn all_pass(
    directory: &[u8],
    n: u16,
    question: Question,
    doubles: Option<usize>,
    text: Option<usize>,
) -> bool
    ensures { result ≡ every (passes question doubles text directory.now) n }
{
    (0..n).all(|k| entry_passes(directory, k, question, doubles, text))
}

// Whether the entry with number k, the first being 0, passes.
fn entry_passes(
    directory: &[u8],
    k: u16,
    question: Question,
    doubles: Option<usize>,
    text: Option<usize>,
) -> bool
    ensures { result ≡ passes question doubles text directory.now k }
{
    match question {
        Question::Rising => is_rising(directory, k),
        Question::Known => is_known(entry_at(directory, k)),
        Question::There => is_there(entry_at(directory, k), doubles, text),
        Question::Within => is_within(entry_at(directory, k), doubles, text),
    }
}

// Whether a key is above the one before it, as the first always is.
fn is_rising(directory: &[u8], k: u16) -> bool
    ensures { result ≡ rising_at (key_of directory.now) k }
{
    if k == 0 {
        return true;
    }
    key_at(directory, k - 1) < key_at(directory, k)
}

// Whether a key's value stands in the entry, among the doubles or in the text.
fn is_known(e: Entry) -> bool
    ensures { result ≡ known e }
{
    e.location == 0 || e.location == 34736 || e.location == 34737
}

// Whether the record that an entry points into is there.
fn is_there(e: Entry, doubles: Option<usize>, text: Option<usize>) -> bool
    ensures { result ≡ there doubles text e }
{
    e.location == 0 || record_for(e.location, doubles, text).is_some()
}

// Whether the values that an entry points to end in their record.
fn is_within(e: Entry, doubles: Option<usize>, text: Option<usize>) -> bool
    ensures { result ≡ within doubles text e }
{
    let values = (e.index as u32) + (e.count as u32);
    e.location == 0
        || record_for(e.location, doubles, text).is_some_and(|n| bytes(e.location, values) <= n)
}

// The record of a location: 34736 is the doubles, and every other one of interest the text.
fn record_for(location: u16, doubles: Option<usize>, text: Option<usize>) -> Option<usize>
    ensures { result ≡ record_for location doubles text }
{
    if location == 34736 {
        return doubles;
    }
    text
}

// The bytes of so many values of a location: eight of each double, one of each byte of text.
pub fn bytes(location: u16, values: u32) -> usize
    ensures { result ≡ bytes_of location values }
{
    if location == 34736 {
        return 8 * (values as usize);
    }
    values as usize
}

// The entry with number k, the first being 0; a byte past the end counts as 0.
pub fn entry_at(directory: &[u8], k: u16) -> Entry
    ensures { result ≡ entry_of directory.now k }
{
    let at = 8 + 8 * (k as usize);
    Entry {
        key: le::u16_at(directory, at),
        location: le::u16_at(directory, at + 2),
        count: le::u16_at(directory, at + 4),
        index: le::u16_at(directory, at + 6),
    }
}

// Its key alone.
fn key_at(directory: &[u8], k: u16) -> u16
    ensures { result ≡ key_of directory.now k }
{
    le::u16_at(directory, 8 + 8 * (k as usize))
}

// The number of the first of n entries that has the key; n where none has it.
pub fn place(directory: &[u8], n: u16, wanted: u16) -> u16
    ensures { result ≡ place_of (key_of directory.now) wanted n }
{
    (0..n)
        .find(|k| key_at(directory, *k) == wanted)
        .unwrap_or(n)
}
