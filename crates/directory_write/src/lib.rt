// A directory of coordinate keys written from its numbers, four for each key: key, location, count, value or index. Added by document 02,
// No. 14.
#![tactic(auto)]

ghost use Rattle.std.specs.Prelude.{◌≡◌, ◌+◌, ◌*◌, ◌≤◌, length};
ghost use Rattle.std.proofs.lemmas.List.Edits.{sets};
ghost use Rattle.directory.specs.Directory.{rising_at, every};
ghost use Rattle.directory_write.specs.Written.{given_key, number_bytes, written_of};

use refusal::Refusal;

// Writes the directory of the keys to the front of dst, what lies past it staying; the answer is the count of its bytes. One to three
// numbers at the end are no key. Refused: 44 where a key is not above the one before it, then 49 where there are more than 8,190, which
// is as many as a VLR holds, then 22. Locations are not judged.
pub fn write(keys: &[u16], dst: &mut [u8]) -> Result<usize, Refusal>
    ensures { (result, dst.new) ≡ written_of keys.now dst.old }
{
    let n = keys.len() / 4;
    let wanted = 8 + 8 * n;
    let rising = all_rising(keys, n);
    if !rising {
        return Err(Refusal::KeysNotRising);
    }
    if 8190 < n {
        return Err(Refusal::TooManyKeys);
    }
    if dst.len() < wanted {
        return Err(Refusal::NoRoom(wanted as u64));
    }
    store_numbers(dst, 0, &[1, 1, 0, n as u16]);
    store_numbers(dst, 8, &keys[..4 * n]);
    Ok(wanted)
}

// Whether each of n keys is above the one before it.
fn all_rising(keys: &[u16], n: usize) -> bool
    requires { 4 * n ≤ length keys.now }
    ensures { result ≡ every (rising_at (given_key keys.now)) n }
{
    // Stays: two places are compared, and two runs of chunks zipped would be no plainer.
    for k in 1..n {
        let before = 4 * (k - 1);
        if keys[4 * k] <= keys[before] {
            return false;
        }
    }
    true
}

// Stores numbers of two bytes one after the other from `at` on.
fn store_numbers(dst: &mut [u8], at: usize, numbers: &[u16])
    requires { at + 2 * length numbers.now ≤ length dst.old }
    ensures { dst.new ≡ sets dst.old at (number_bytes numbers.now) }
{
    let mut to = at;
    for number in numbers {
        store::set_u16(dst, to, *number);
        to += 2;
    }
}
