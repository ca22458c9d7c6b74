// Little-endian numbers in a slice of bytes. Every reader is total: a byte past the end counts as 0. They are written by
// std's `to_le_bytes`.
#![tactic(auto)]

pub mod float;

ghost use Rattle.std.specs.Prelude.{◌≡◌};
ghost use Rattle.std.specs.Int.{w8, w16, w32};
ghost use Rattle.std.proofs.Common.{to_z};
ghost use Rattle.le.specs.Le.{num};
ghost use Rattle.le.specs.Real.{f32_of, f64_of};

use float::{F32, F64};

// The byte at `at`.
pub fn u8_at(s: &[u8], at: usize) -> u8
    ensures { result ≡ num 1 at s.now }
{
    if at < s.len() { s[at] } else { 0 }
}

// The number in the two bytes from `at` on.
pub fn u16_at(s: &[u8], at: usize) -> u16
    ensures { result ≡ num 2 at s.now }
{
    if s.len() <= at {
        return 0;
    }
    (u8_at(s, at) as u16) + (u8_at(s, at + 1) as u16) * 256
}

// The number in the four bytes from `at` on.
pub fn u32_at(s: &[u8], at: usize) -> u32
    ensures { result ≡ num 4 at s.now }
{
    if s.len() <= at {
        return 0;
    }
    (u16_at(s, at) as u32) + (u16_at(s, at + 2) as u32) * 65536
}

// The number in the eight bytes from `at` on.
pub fn u64_at(s: &[u8], at: usize) -> u64
    ensures { result ≡ num 8 at s.now }
{
    if s.len() <= at {
        return 0;
    }
    (u32_at(s, at) as u64) + (u32_at(s, at + 4) as u64) * 4294967296
}

// The same bytes as signed numbers.

pub fn i8_at(s: &[u8], at: usize) -> i8
    ensures { result ≡ to_z w8 (num 1 at s.now) }
{
    u8_at(s, at).cast_signed()
}

pub fn i16_at(s: &[u8], at: usize) -> i16
    ensures { result ≡ to_z w16 (num 2 at s.now) }
{
    u16_at(s, at).cast_signed()
}

pub fn i32_at(s: &[u8], at: usize) -> i32
    ensures { result ≡ to_z w32 (num 4 at s.now) }
{
    u32_at(s, at).cast_signed()
}

// The same bytes as floats, every pattern kept.

pub fn f32_at(s: &[u8], at: usize) -> F32
    ensures { result ≡ f32_of (num 4 at s.now) }
{
    F32::from_bits(u32_at(s, at))
}

pub fn f64_at(s: &[u8], at: usize) -> F64
    ensures { result ≡ f64_of (num 8 at s.now) }
{
    F64::from_bits(u64_at(s, at))
}
