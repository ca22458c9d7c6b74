// Point formats: which fields a point record has. From src/point/format.rs of las 0.11.2, and `Field` from its
// src/raw/point.rs, since a format's length is the sum of its fields' sizes and crates do not depend on each other in a
// circle.
#![tactic(auto)]

ghost use Rattle.std.specs.Prelude.{◌≡◌, true, false, cond, ◌≤◌};
ghost use Rattle.format.specs.Codes.{coded, format_of, code_by, code_of};
ghost use Rattle.format.specs.Fields.{size_of, len_of};
ghost use Rattle.format.specs.Format.{extended_of, plain};

use refusal::Refusal;

const TIME_FORMATS: [u8; 9] = [1, 3, 4, 5, 6, 7, 8, 9, 10];

const COLOR_FORMATS: [u8; 6] = [2, 3, 5, 7, 8, 10];

const WAVEFORM_FORMATS: [u8; 4] = [4, 5, 9, 10];

const NIR_FORMATS: [u8; 2] = [8, 10];

#[derive(Clone, Copy)]
pub struct Format {
    pub has_gps_time: bool,
    pub has_color: bool,
    pub is_extended: bool,
    pub has_waveform: bool,
    pub has_nir: bool,
    pub extra_bytes: u16,
    pub is_compressed: bool,
}

// A single field of a point record.
#[derive(Clone, Copy)]
pub enum Field {
    X,
    Y,
    Z,
    Intensity,
    // Two bytes for legacy formats, three for extended.
    Flags,
    UserData,
    // One byte (i8) for legacy formats, two (i16) for extended.
    ScanAngle,
    PointSourceId,
    GpsTime,
    Color,
    Nir,
    Waveform,
    // As many bytes as the format says.
    ExtraBytes,
}

impl Field {
    // The bytes this field takes in a record of the given format.
    pub fn size(self, format: Format) -> usize
        ensures { result ≡ size_of format self }
    {
        match self {
            Field::X => 4,
            Field::Y => 4,
            Field::Z => 4,
            Field::Intensity => 2,
            Field::Flags => { if format.is_extended { 3 } else { 2 } }
            Field::UserData => 1,
            Field::ScanAngle => { if format.is_extended { 2 } else { 1 } }
            Field::PointSourceId => 2,
            Field::GpsTime => 8,
            Field::Color => 6,
            Field::Nir => 2,
            Field::Waveform => 29,
            Field::ExtraBytes => format.extra_bytes as usize,
        }
    }
}

impl Format {
    // The format with this code: 0 to 10; 128 or more is masked with 0x3f and marked compressed, whatever remains; 11 to
    // 127 are refused with 5.
    pub fn new(n: u8) -> Result<Format, Refusal>
        ensures { result ≡ format_of n }
    {
        if n < 11 {
            return Ok(with_code(n, false));
        }
        if n < 128 {
            return Err(Refusal::Format(n));
        }
        Ok(with_code(n % 64, true))
    }

    // This format, extended: with the longer flags and angle, and with time, which extended formats must have.
    pub fn extend(mut self) -> Format
        ensures { result ≡ extended_of self }
    {
        self.has_gps_time = true;
        self.is_extended = true;
        self
    }

    // The bytes of a record of this format, or 8 with the true length where that is over 65,535.
    pub fn len(self) -> Result<u16, Refusal>
        ensures { result ≡ len_of self }
    {
        let n = 20
            + when(self.is_extended, 2)
            + when(self.has_gps_time, 8)
            + when(self.has_color, 6)
            + when(self.has_nir, 2)
            + when(self.has_waveform, 29)
            + (self.extra_bytes as usize);
        if n > 65535 {
            return Err(Refusal::RecordLength(n as u32));
        }
        Ok(n as u16)
    }

    // The code of this format, or 25 where it is compressed or no code has these attributes.
    pub fn to_u8(self) -> Result<u8, Refusal>
        ensures { result ≡ code_of self }
    {
        if self.is_compressed {
            return Err(Refusal::Attributes);
        }
        if self.is_extended {
            if self.has_gps_time {
                return extended_code(self.has_color, self.has_nir, self.has_waveform);
            }
            return Err(Refusal::Attributes);
        }
        if self.has_nir {
            return Err(Refusal::Attributes);
        }
        legacy_code(self.has_gps_time, self.has_color, self.has_waveform)
    }
}

// The format with no attribute at all, which is format 0.
impl Default for Format {
    ghost is_default = { λ f. f ≡ plain };

    fn default() -> Format {
        Format {
            has_gps_time: false,
            has_color: false,
            is_extended: false,
            has_waveform: false,
            has_nir: false,
            extra_bytes: 0,
            is_compressed: false,
        }
    }
}

// The attributes of an uncompressed code.
fn with_code(n: u8, is_compressed: bool) -> Format
    ensures { result ≡ coded n is_compressed }
{
    Format {
        has_gps_time: TIME_FORMATS.contains(&n),
        has_color: COLOR_FORMATS.contains(&n),
        is_extended: n >= 6,
        has_waveform: WAVEFORM_FORMATS.contains(&n),
        has_nir: NIR_FORMATS.contains(&n),
        extra_bytes: 0,
        is_compressed,
    }
}

// The code of an extended format with time.
fn extended_code(color: bool, nir: bool, waveform: bool) -> Result<u8, Refusal>
    ensures { result ≡ code_by true true color nir waveform }
{
    match (color, nir, waveform) {
        (false, false, false) => Ok(6),
        (true, false, false) => Ok(7),
        (true, true, false) => Ok(8),
        (false, false, true) => Ok(9),
        (true, true, true) => Ok(10),
        (false, true, _) => Err(Refusal::Attributes),
        (true, false, true) => Err(Refusal::Attributes),
    }
}

// The code of a legacy format, which has no near infrared.
fn legacy_code(gps_time: bool, color: bool, waveform: bool) -> Result<u8, Refusal>
    ensures { result ≡ code_by false gps_time color false waveform }
{
    match (waveform, gps_time, color) {
        (false, false, false) => Ok(0),
        (false, true, false) => Ok(1),
        (false, false, true) => Ok(2),
        (false, true, true) => Ok(3),
        (true, true, false) => Ok(4),
        (true, true, true) => Ok(5),
        (true, false, _) => Err(Refusal::Attributes),
    }
}

// n where the test holds, else 0.
pub fn when(test: bool, n: usize) -> usize
    ensures { (result ≡ cond test n 0) × (result ≤ n) }
{
    if test { n } else { 0 }
}
