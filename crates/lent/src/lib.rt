// Bytes written to the front of a lent slice: all of them, or none and refusal 22.
#![tactic(auto)]

ghost use Rattle.std.specs.Prelude.{◌≡◌, ◌++◌};
ghost use Rattle.lent.specs.Front.{front_of};

use refusal::Refusal;

// Writes `src` to the front of `dst` and leaves what lies past it; where there is no room, nothing is written.
pub fn put(dst: &mut [u8], src: &[u8]) -> Result<usize, Refusal>
    ensures { (result, dst.new) ≡ front_of src.now dst.old }
{
    let n = src.len();
    if dst.len() < n {
        return Err(Refusal::NoRoom(n as u64));
    }
    // Stays: std's `copy_from_slice` has the library ask its user for a `memmove`; of this loop the compiler makes a copy that needs no more
    // than before.
    for i in 0..n {
        dst[i] = src[i];
    }
    Ok(n)
}

// Writes `head` and then `tail`, as `put` writes one slice.
pub fn put2(dst: &mut [u8], head: &[u8], tail: &[u8]) -> Result<usize, Refusal>
    ensures { (result, dst.new) ≡ front_of (head.now ++ tail.now) dst.old }
{
    let h = head.len();
    let wanted = h + tail.len();
    if dst.len() < wanted {
        return Err(Refusal::NoRoom(wanted as u64));
    }
    let _ = put(dst, head);
    let _ = put(&mut dst[h..], tail);
    Ok(wanted)
}
