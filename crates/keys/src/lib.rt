// The coordinate keys of a file, which say the grid that its points are in: the directory in the first VLR of LASF_Projection with record
// id 34735, and the doubles and the text that it points into, 34736 and 34737. Added by document 02, No. 14.
#![tactic(auto)]

ghost use Rattle.std.specs.Prelude.{◌≡◌, take, drop};
ghost use Rattle.keys.specs.Keys.{projection_of, target_of, start_of, opened_in, opened_of, base_of, part_of, told_of, key_at_of, found_of, got_of};

use directory::Entry;
use first_vlr::Span;
use outline::Outline;
use refusal::{Refusal, Refused};

// Where the keys of a file stand: how many there are, the first byte and the bytes of their directory, and the first byte of the
// doubles and of the text, 0 where there are none.
#[derive(Clone, Copy)]
pub struct Keys {
    pub count: u16,
    pub start: usize,
    pub length: usize,
    pub doubles: usize,
    pub text: usize,
}

// The value of a key: a number, or doubles of eight bytes each or text, as a part of the file.
#[derive(Clone, Copy)]
pub enum Value {
    Number(u16),
    Doubles { start: usize, length: usize },
    Text { start: usize, length: usize },
}

// A key and its value.
#[derive(Clone, Copy)]
pub struct KeyValue {
    pub key: u16,
    pub value: Value,
}

// The value of a key. Refused as `open` says, then 48 where the directory does not have the key.
pub fn get(file: &[u8], allowance: u64, wanted: u16) -> Result<Value, Refused>
    ensures { result ≡ got_of allowance wanted file.now }
{
    let keys = open(file, allowance)?;
    let Some(found) = find(file, keys, wanted) else {
        return Err(Refusal::KeyNotFound.into());
    };
    Ok(found.value)
}

// The keys of a file. Refused with the file check's refusal; 42 where no VLR holds a directory; then as `directory::judge` says.
pub fn open(file: &[u8], allowance: u64) -> Result<Keys, Refused>
    ensures { result ≡ opened_of allowance file.now }
{
    let o = first_vlr::open(file, allowance)?;
    open_in(
        file,
        projection(file, o, 34735),
        projection(file, o, 34736),
        projection(file, o, 34737),
    )
}

// The first VLR of LASF_Projection with this record id.
fn projection(file: &[u8], o: Outline, record_id: u16) -> Option<Span>
    ensures { result ≡ projection_of o record_id file.now }
{
    first_vlr::first(file, o, b"LASF_Projection", record_id)
}

// The keys of a directory, and of the doubles and the text.
fn open_in(
    file: &[u8],
    found: Option<Span>,
    doubles: Option<Span>,
    text: Option<Span>,
) -> Result<Keys, Refused>
    ensures { result ≡ opened_in found doubles text file.now }
{
    let Some(span) = found else {
        return Err(Refusal::NoDirectory.into());
    };
    let count = directory::judge(
        bytes_of(file, span.start, span.length),
        target(doubles),
        target(text),
    )?;
    Ok(Keys {
        count,
        start: span.start,
        length: span.length,
        doubles: start_of(doubles),
        text: start_of(text),
    })
}

// How many bytes a record holds.
fn target(found: Option<Span>) -> Option<usize>
    ensures { result ≡ target_of found }
{
    found.map(|span| span.length)
}

// Where they start; 0 where there is no record.
fn start_of(found: Option<Span>) -> usize
    ensures { result ≡ start_of found }
{
    found.map_or(0, |span| span.start)
}

// The key with number k, the first being 0, and its value. Nothing where there are no more; nor where the value would end beyond the
// file, as none does of keys that `open` gave for this file.
pub fn key_at(file: &[u8], keys: Keys, k: u16) -> Option<KeyValue>
    ensures { result ≡ key_at_of keys k file.now }
{
    if keys.count <= k {
        return None;
    }
    let entry = directory::entry_at(bytes_of(file, keys.start, keys.length), k);
    told(file.len(), keys, entry)
}

// A key by what it is, and its value; nothing where the keys do not have it.
pub fn find(file: &[u8], keys: Keys, wanted: u16) -> Option<KeyValue>
    ensures { result ≡ found_of keys wanted file.now }
{
    let k = directory::place(bytes_of(file, keys.start, keys.length), keys.count, wanted);
    key_at(file, keys, k)
}

// What an entry says, in a file of `len` bytes.
fn told(len: usize, keys: Keys, entry: Entry) -> Option<KeyValue>
    ensures { result ≡ told_of len keys «entry» }
{
    if entry.location == 0 {
        return Some(KeyValue {
            key: entry.key,
            value: Value::Number(entry.index),
        });
    }
    let part = part_of(len, base(keys, entry.location), entry)?;
    if entry.location == 34736 {
        return Some(KeyValue {
            key: entry.key,
            value: Value::Doubles {
                start: part.start,
                length: part.length,
            },
        });
    }
    Some(KeyValue {
        key: entry.key,
        value: Value::Text {
            start: part.start,
            length: part.length,
        },
    })
}

// Where the values of a location start.
fn base(keys: Keys, location: u16) -> usize
    ensures { result ≡ base_of keys location }
{
    if location == 34736 {
        return keys.doubles;
    }
    keys.text
}

// The values of an entry in a record whose data starts at `base`.
fn part_of(len: usize, base: usize, entry: Entry) -> Option<Span>
    ensures { result ≡ part_of len base «entry» }
{
    let all = directory::bytes(entry.location, (entry.index as u32) + (entry.count as u32));
    if len < base {
        return None;
    }
    if len - base < all {
        return None;
    }
    Some(Span {
        start: base + directory::bytes(entry.location, entry.index as u32),
        length: directory::bytes(entry.location, entry.count as u32),
    })
}

// The `length` bytes from `start` on, as far as the file goes.
fn bytes_of(file: &[u8], start: usize, length: usize) -> &[u8]
    ensures { result.now ≡ take length (drop start file.now) }
{
    if file.len() < start {
        return &file[..0];
    }
    if file.len() - start < length {
        return &file[start..];
    }
    &file[start..start + length]
}
