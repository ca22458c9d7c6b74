// Coordinate keys for C and Rust. Where the keys of a file stand crosses the boundary as five numbers that the caller keeps: how many keys
// there are, of which the low 16 bits count, the first byte and the bytes of their directory, and the first byte of the doubles and of the
// text. A key is five numbers: the key, its location (0, 34736 or 34737), its value where the location is 0, and else the first byte and the
// bytes of its part of the doubles or of the text; what it does not have is 0. Rows are those of the crate words.
#![tactic(auto)]

ghost use Rattle.std.specs.Prelude.{◌≡◌};
ghost use Rattle.words.specs.Rows.{written_row};
ghost use Rattle.keys.specs.Keys.{opened_of, key_at_of, found_of, got_of};
ghost use Rattle.directory_write.specs.Written.{written_of};
ghost use Rattle.capi_keys.specs.Rows.{keys_numbers, keys_from, key_numbers, opened_row, key_row, got_row};

use keys::{KeyValue, Keys, Value};

// Where the keys of a file stand; the row's value is how many there are. Where it is refused the numbers stay as they were.
#[unsafe(no_mangle)]
pub extern "C" fn las_keys(file: &[u8], allowance: u64, numbers: &mut [u64; 5], row: &mut [u64; 3])
    ensures { (row.new, numbers.new) ≡ opened_row numbers.old (opened_of allowance file.now) }
{
    match keys::open(file, allowance) {
        Ok(keys) => {
            *numbers = keys_numbers(keys);
            words::tell(row, 0, keys.count as u64, 0)
        }
        Err(refused) => words::refuse(row, refused.refusal, refused.record),
    }
}

// Whether there is a key with number k, the first being 0: then that key; else the numbers stay as they were.
#[unsafe(no_mangle)]
pub extern "C" fn las_keys_at(file: &[u8], numbers: &[u64; 5], k: u16, key: &mut [u64; 5]) -> bool
    ensures { (result, key.new) ≡ key_row key.old (key_at_of (keys_from numbers.now) k file.now) }
{
    tell_key(keys::key_at(file, keys_from(numbers), k), key)
}

// Whether the keys have this one: then that key; else the numbers stay as they were.
#[unsafe(no_mangle)]
pub extern "C" fn las_keys_find(
    file: &[u8],
    numbers: &[u64; 5],
    wanted: u16,
    key: &mut [u64; 5],
) -> bool
    ensures { (result, key.new) ≡ key_row key.old (found_of (keys_from numbers.now) wanted file.now) }
{
    tell_key(keys::find(file, keys_from(numbers), wanted), key)
}

// A key of a file. Where it is refused the numbers stay as they were.
#[unsafe(no_mangle)]
pub extern "C" fn las_key(
    file: &[u8],
    allowance: u64,
    wanted: u16,
    key: &mut [u64; 5],
    row: &mut [u64; 3],
)
    ensures { (row.new, key.new) ≡ got_row wanted key.old (got_of allowance wanted file.now) }
{
    match keys::get(file, allowance, wanted) {
        Ok(value) => {
            *key = key_numbers(wanted, value);
            words::tell(row, 0, 0, 0)
        }
        Err(refused) => words::refuse(row, refused.refusal, refused.record),
    }
}

// Writes the directory of keys, four numbers each, to the front of dst; the row's value is the count of bytes.
#[unsafe(no_mangle)]
pub extern "C" fn las_keys_write(keys: &[u16], dst: &mut [u8], row: &mut [u64; 3])
    ensures { (row.new, dst.new) ≡ written_row (written_of keys.now dst.old) }
{
    match directory_write::write(keys, dst) {
        Ok(n) => words::tell(row, 0, n as u64, 0),
        Err(refusal) => words::refuse(row, refusal, 0),
    }
}

// Whether there is a key, and its numbers where there is.
fn tell_key(found: Option<KeyValue>, numbers: &mut [u64; 5]) -> bool
    ensures { (result, numbers.new) ≡ key_row numbers.old found }
{
    match found {
        Some(found) => {
            *numbers = key_numbers(found.key, found.value);
            true
        }
        None => false,
    }
}

// A key's numbers.
fn key_numbers(key: u16, value: Value) -> [u64; 5]
    ensures { result ≡ key_numbers key value }
{
    match value {
        Value::Number(number) => [key as u64, 0, number as u64, 0, 0],
        Value::Doubles { start, length } => [key as u64, 34736, 0, start as u64, length as u64],
        Value::Text { start, length } => [key as u64, 34737, 0, start as u64, length as u64],
    }
}

// The numbers of where keys stand, and where keys of such numbers stand.

fn keys_numbers(keys: Keys) -> [u64; 5]
    ensures { result ≡ keys_numbers keys }
{
    [
        keys.count as u64,
        keys.start as u64,
        keys.length as u64,
        keys.doubles as u64,
        keys.text as u64,
    ]
}

fn keys_from(n: &[u64; 5]) -> Keys
    ensures { result ≡ keys_from n.now }
{
    Keys {
        count: (n[0] % 65536) as u16,
        start: n[1] as usize,
        length: n[2] as usize,
        doubles: n[3] as usize,
        text: n[4] as usize,
    }
}
