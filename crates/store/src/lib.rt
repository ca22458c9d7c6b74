// Stores into a lent slice at a place, and bytes copied out of one. All are total: what would lie past the end is left out, and
// counts as 0.
#![tactic(auto)]

ghost use Rattle.std.specs.Prelude.{◌≡◌, [], ◌∷◌};
ghost use Rattle.std.proofs.lemmas.List.Edits.{sets};
ghost use Rattle.le.specs.Le.{bytes};
ghost use Rattle.store.specs.Window.{window};

// Stores the bytes `v` from `at` on.
pub fn set_bytes(d: &mut [u8], at: usize, v: &[u8])
    ensures { d.new ≡ sets d.old at v.now }
{
    if d.len() <= at {
        return;
    }
    // Stays: two ways in, so that of bytes whose number the compiler knows it makes plain stores; by the smaller of two lengths it does not.
    let room = d.len() - at;
    if v.len() <= room {
        let _ = lent::put(&mut d[at..], v);
        return;
    }
    let _ = lent::put(&mut d[at..], &v[..room]);
}

// Stores the bytes of a number, the lowest first.

pub fn set_u8(d: &mut [u8], at: usize, x: u8)
    ensures { d.new ≡ sets d.old at (x ∷ []) }
{
    set_bytes(d, at, &[x])
}

pub fn set_u16(d: &mut [u8], at: usize, x: u16)
    ensures { d.new ≡ sets d.old at (bytes 2 x) }
{
    set_bytes(d, at, &x.to_le_bytes())
}

pub fn set_u32(d: &mut [u8], at: usize, x: u32)
    ensures { d.new ≡ sets d.old at (bytes 4 x) }
{
    set_bytes(d, at, &x.to_le_bytes())
}

pub fn set_u64(d: &mut [u8], at: usize, x: u64)
    ensures { d.new ≡ sets d.old at (bytes 8 x) }
{
    set_bytes(d, at, &x.to_le_bytes())
}

// The `N` bytes of `s` from `at` on, copied; one past the end counts as 0.
pub fn bytes_at<const N: usize>(s: &[u8], at: usize) -> [u8; N]
    ensures { result ≡ window N at s.now }
{
    let mut a = [0u8; N];
    if at < s.len() {
        set_bytes(&mut a, 0, &s[at..]);
    }
    a
}
