// What C cannot hold, as a word: a u32 with its parts at fixed bits; an answer that may be a refusal, as a row of three
// numbers that the caller lends; and the numbers that stand for a struct, one after the other.
#![tactic(auto)]

ghost use Rattle.std.specs.Prelude.{◌≡◌, [], ◌∷◌, ◌%◌, ◌≤◌, get_or};
ghost use Rattle.flags.specs.Bytes.{flag};
ghost use Rattle.words.specs.Words.{packed_of, angle_of, angle_word, flags_of, flags_word, format_of_word, format_word};
ghost use Rattle.words.specs.Rows.{refused_row, part_row};

use angle::ScanAngle;
use flags::Flags;
use format::Format;
use refusal::Refusal;

// Four bytes as a number, the lowest first.
pub fn packed(a: u8, b: u8, c: u8, d: u8) -> u32
    ensures { result ≡ packed_of a b c d }
{
    (a as u32) + (b as u32) * 256 + (c as u32) * 65536 + (d as u32) * 16777216
}

// The flags of a word.
pub fn flags_of(w: u32) -> Flags
    ensures { result ≡ flags_of w }
{
    let a = (w % 256) as u8;
    let b = (w / 256 % 256) as u8;
    if w / 16777216 == 3 {
        return Flags::ThreeByte(a, b, (w / 65536 % 256) as u8);
    }
    Flags::TwoByte(a, b)
}

// The word of some flags.
pub fn flags_word(flags: Flags) -> u32
    ensures { result ≡ flags_word flags }
{
    match flags {
        Flags::TwoByte(a, b) => packed(a, b, 0, 2),
        Flags::ThreeByte(a, b, c) => packed(a, b, c, 3),
    }
}

// The format of a word.
pub fn format_of(w: u32) -> Format
    ensures { result ≡ format_of_word w }
{
    Format {
        has_gps_time: w % 2 == 1,
        has_color: w / 2 % 2 == 1,
        is_extended: w / 4 % 2 == 1,
        has_waveform: w / 8 % 2 == 1,
        has_nir: w / 16 % 2 == 1,
        extra_bytes: (w / 65536) as u16,
        is_compressed: w / 32 % 2 == 1,
    }
}

// The word of a format.
pub fn format_word(format: Format) -> u32
    ensures { result ≡ format_word format }
{
    bit(format.has_gps_time)
        + bit(format.has_color) * 2
        + bit(format.is_extended) * 4
        + bit(format.has_waveform) * 8
        + bit(format.has_nir) * 16
        + bit(format.is_compressed) * 32
        + (format.extra_bytes as u32) * 65536
}

// The angle of a word.
pub fn angle_of(w: u32) -> ScanAngle
    ensures { result ≡ angle_of w }
{
    if w / 65536 == 1 {
        return ScanAngle::Scaled(((w % 65536) as u16).cast_signed());
    }
    ScanAngle::Rank(((w % 256) as u8).cast_signed())
}

// The word of an angle.
pub fn angle_word(angle: ScanAngle) -> u32
    ensures { result ≡ angle_word angle }
{
    match angle {
        ScanAngle::Rank(rank) => rank.cast_unsigned() as u32,
        ScanAngle::Scaled(scaled) => (scaled.cast_unsigned() as u32) + 65536,
    }
}

// A yes-or-no as 1 or 0.
fn bit(yes: bool) -> u32
    ensures { (result ≡ flag yes) × (result ≤ 1) }
{
    if yes { 1 } else { 0 }
}

// A row's three numbers.
pub fn tell(row: &mut [u64; 3], number: u64, value: u64, record: u64)
    ensures { row.new ≡ number ∷ value ∷ «record» ∷ [] }
{
    *row = [number, value, record];
}

// A refusal's row.
pub fn refuse(row: &mut [u64; 3], refusal: Refusal, record: u64)
    ensures { row.new ≡ refused_row refusal «record» }
{
    let told = refusal.row(record);
    tell(row, told.number as u64, told.value, told.record)
}

// A part of a lent slice: where it starts, and its bytes. Of an empty one, as of every part that is refused, both are 0, wherever
// it would stand.
pub fn tell_part(part: &mut [u64; 2], at: u64, bytes: u64)
    ensures { part.new ≡ part_row at bytes }
{
    if bytes == 0 {
        *part = [0, 0];
        return;
    }
    *part = [at, bytes];
}

// The number at place k, 0 past the end, and its low bits.

pub fn nth(n: &[u64], k: usize) -> u64
    ensures { result ≡ get_or n.now k 0 }
{
    if k < n.len() { n[k] } else { 0 }
}

pub fn low8(n: &[u64], k: usize) -> u8
    ensures { result ≡ get_or n.now k 0 % 256 }
{
    (nth(n, k) % 256) as u8
}

pub fn low16(n: &[u64], k: usize) -> u16
    ensures { result ≡ get_or n.now k 0 % 65536 }
{
    (nth(n, k) % 65536) as u16
}

pub fn low32(n: &[u64], k: usize) -> u32
    ensures { result ≡ get_or n.now k 0 % 4294967296 }
{
    (nth(n, k) % 4294967296) as u32
}
