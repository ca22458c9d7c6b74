// The flags of a point record: return numbers, class, overlap and the rest, in two bytes (formats 0 to 5) or three
// (formats 6 to 10). From src/raw/point.rs of las 0.11.2; `/` and `%` by powers of two stand for its shifts and masks.
#![tactic(auto)]

ghost use Rattle.std.specs.Prelude.{◌≡◌, cond};
ghost use Rattle.flags.specs.Readings.{bit, return_number_of, number_of_returns_of, direction_of, synthetic_of, key_point_of, withheld_of, overlap_of, channel_of, edge_of, class_of};
ghost use Rattle.flags.specs.Bytes.{two_bytes_of, three_bytes_of, cleared_of, same_of};
ghost use Rattle.flags.specs.declared.Flags.TheVariants.{TwoByte};
ghost use Rattle.flags.specs.Same.{same-equivalence};
ghost use Rattle.std.specs.Cmp.{partial_equiv_from_equiv};

use refusal::Refusal;

// The class that stands for overlap in two-byte flags, and the one that takes its place where it is cleared.
const OVERLAP_CLASSIFICATION_CODE: u8 = 12;

const UNCLASSIFIED: u8 = 1;

#[derive(Clone, Copy)]
pub enum Flags {
    TwoByte(u8, u8),
    ThreeByte(u8, u8, u8),
}

// The direction at which the scanner mirror was traveling at the time of pulse output.
#[derive(Clone, Copy)]
pub enum ScanDirection {
    RightToLeft,
    LeftToRight,
}

// The bytes of three-byte flags.
#[derive(Clone, Copy, PartialEq, Eq)]
pub struct ThreeBytes {
    pub a: u8,
    pub b: u8,
    pub c: u8,
}

impl Flags {
    // The return number.
    pub fn return_number(self) -> u8
        ensures { result ≡ return_number_of self }
    {
        match self {
            Flags::TwoByte(a, _) => a % 8,
            Flags::ThreeByte(a, _, _) => a % 16,
        }
    }

    // The number of returns.
    pub fn number_of_returns(self) -> u8
        ensures { result ≡ number_of_returns_of self }
    {
        match self {
            Flags::TwoByte(a, _) => a / 8 % 8,
            Flags::ThreeByte(a, _, _) => a / 16 % 16,
        }
    }

    // The scan direction.
    pub fn scan_direction(self) -> ScanDirection
        ensures { result ≡ direction_of self }
    {
        match self {
            Flags::TwoByte(a, _) => direction(a),
            Flags::ThreeByte(_, b, _) => direction(b),
        }
    }

    // Whether this point is synthetic.
    pub fn is_synthetic(self) -> bool
        ensures { result ≡ synthetic_of self }
    {
        match self {
            Flags::TwoByte(_, b) => b / 32 % 2 == 1,
            Flags::ThreeByte(_, b, _) => b % 2 == 1,
        }
    }

    // Whether this point is a key point.
    pub fn is_key_point(self) -> bool
        ensures { result ≡ key_point_of self }
    {
        match self {
            Flags::TwoByte(_, b) => b / 64 % 2 == 1,
            Flags::ThreeByte(_, b, _) => b / 2 % 2 == 1,
        }
    }

    // Whether this point is withheld.
    pub fn is_withheld(self) -> bool
        ensures { result ≡ withheld_of self }
    {
        match self {
            Flags::TwoByte(_, b) => b / 128 % 2 == 1,
            Flags::ThreeByte(_, b, _) => b / 4 % 2 == 1,
        }
    }

    // Whether this point is overlap. Of two bytes it is the Rust's reading, by the class's low four bits, so that class 28
    // counts too; the standard's, class 12 alone, stands beside it in the definitions.
    pub fn is_overlap(self) -> bool
        ensures { result ≡ overlap_of self }
    {
        match self {
            Flags::TwoByte(_, b) => b % 16 == OVERLAP_CLASSIFICATION_CODE,
            Flags::ThreeByte(_, b, _) => b / 8 % 2 == 1,
        }
    }

    // The scanner channel; two bytes have none, which reads as 0.
    pub fn scanner_channel(self) -> u8
        ensures { result ≡ channel_of self }
    {
        match self {
            Flags::TwoByte(_, _) => 0,
            Flags::ThreeByte(_, b, _) => b / 16 % 4,
        }
    }

    // Whether this point is the edge of a flight line.
    pub fn is_edge_of_flight_line(self) -> bool
        ensures { result ≡ edge_of self }
    {
        match self {
            Flags::TwoByte(a, _) => a / 128 % 2 == 1,
            Flags::ThreeByte(_, b, _) => b / 128 % 2 == 1,
        }
    }

    // The class as a number, in place of the Rust's `to_classification`.
    pub fn class(self) -> u8
        ensures { result ≡ class_of self }
    {
        match self {
            Flags::TwoByte(_, b) => b % 32,
            Flags::ThreeByte(_, _, c) => c,
        }
    }

    // The two bytes. Of three-byte flags the first of return number, number of returns, class and channel that does not
    // fit is refused; a set overlap flag becomes class 12, whatever the class was, as in the Rust.
    pub fn to_two_bytes(self) -> Result<(u8, u8), Refusal>
        ensures { result ≡ two_bytes_of self }
    {
        match self {
            Flags::TwoByte(a, b) => Ok((a, b)),
            Flags::ThreeByte(a, b, c) => two_bytes(a, b, c),
        }
    }

    // The three bytes. Two-byte flags lose direction and edge, and their second byte becomes the class whole, as in the
    // Rust.
    pub fn to_three_bytes(self) -> ThreeBytes
        ensures { result ≡ three_bytes_of self }
    {
        match self {
            Flags::TwoByte(a, b) => ThreeBytes {
                a: a / 8 % 8 * 16 + a % 8,
                b: 0,
                c: b,
            },
            Flags::ThreeByte(a, b, c) => ThreeBytes { a, b, c },
        }
    }

    // The flags with class 12 turned into class 1, in three bytes with the overlap flag set.
    pub fn clear_overlap_class(self) -> Flags
        ensures { result ≡ cleared_of self }
    {
        match self {
            Flags::TwoByte(a, b) => cleared_two(a, b),
            Flags::ThreeByte(a, b, c) => cleared_three(a, b, c),
        }
    }
}

// Flags are equal where their three bytes are, as the Rust compares them.
impl PartialEq for Flags {
    ghost eq = { same_of };

    ghost laws = { partial_equiv_from_equiv same-equivalence };

    fn eq(&self, other: &Flags) -> bool {
        self.to_three_bytes() == other.to_three_bytes()
    }
}

impl Eq for Flags {
    ghost laws = { same-equivalence };
}

// Two zero bytes.
impl Default for Flags {
    ghost is_default = { λ f. f ≡ TwoByte 0 0 };

    fn default() -> Flags {
        Flags::TwoByte(0, 0)
    }
}

// What bit 6 of the byte with the direction says.
fn direction(n: u8) -> ScanDirection
    ensures { result ≡ cond (bit 6 n) ScanDirection.LeftToRight ScanDirection.RightToLeft }
{
    if n / 64 % 2 == 1 {
        ScanDirection::LeftToRight
    } else {
        ScanDirection::RightToLeft
    }
}

// The two bytes of three-byte flags, or the first refusal.
fn two_bytes(a: u8, b: u8, c: u8) -> Result<(u8, u8), Refusal>
    ensures { result ≡ two_bytes_of (Flags.ThreeByte a b c) }
{
    let return_number = a % 16;
    if return_number > 7 {
        return Err(Refusal::ReturnNumber(return_number));
    }
    let number_of_returns = a / 16 % 16;
    if number_of_returns > 7 {
        return Err(Refusal::NumberOfReturns(number_of_returns));
    }
    if c > 31 {
        return Err(Refusal::Class(c));
    }
    let scanner_channel = b / 16 % 4;
    if scanner_channel > 0 {
        return Err(Refusal::Channel(scanner_channel));
    }
    // Direction and edge keep their places, bits 6 and 7; synthetic, key point and withheld move from bits 0 to 2 up to bits 5 to 7.
    let first = b / 64 * 64 + number_of_returns * 8 + return_number;
    if b / 8 % 2 == 1 {
        return Ok((first, b % 8 * 32 + OVERLAP_CLASSIFICATION_CODE));
    }
    Ok((first, b % 8 * 32 + c))
}

// Class 12 becomes 1, and the three flags above it stay.
fn cleared_two(a: u8, b: u8) -> Flags
    ensures { result ≡ cleared_of (Flags.TwoByte a b) }
{
    if b % 32 == OVERLAP_CLASSIFICATION_CODE {
        return Flags::TwoByte(a, b / 32 * 32 + UNCLASSIFIED);
    }
    Flags::TwoByte(a, b)
}

// Class 12 becomes 1, and the overlap flag, bit 3, is set.
fn cleared_three(a: u8, b: u8, c: u8) -> Flags
    ensures { result ≡ cleared_of (Flags.ThreeByte a b c) }
{
    if c == OVERLAP_CLASSIFICATION_CODE {
        return Flags::ThreeByte(a, b / 16 * 16 + 8 + b % 8, UNCLASSIFIED);
    }
    Flags::ThreeByte(a, b, c)
}
