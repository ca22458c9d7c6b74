// Document 01's refusals, 1 to 27: a case for each row of its table, named as there, with the row's value; then those of document
// 02's requests, in the order in which they landed.
#![tactic(auto)]

ghost use Rattle.std.specs.Prelude.{◌≡◌, ◌*◌};
ghost use Rattle.refusal.specs.Table.{number_of, value_of, row_of, wanted_of};

#[derive(Clone, Copy)]
pub enum Refusal {
    // Bytes wanted in all, 0 if over 2^64 - 1.
    Short(u64),
    // The four bytes found, as a u32.
    Signature(u32),
    // Major times 256 plus minor.
    Version(u16),
    HeaderSize(u16),
    Format(u8),
    Compressed(u8),
    FormatForVersion(u8),
    // The field, or for a format its true length, which may pass 65,535.
    RecordLength(u32),
    PointOffset(u32),
    Allowance(u64),
    VlrExtent(u16),
    PointExtent(u64),
    EvlrExtent(u64),
    EvlrStart(u64),
    ReturnNumber(u8),
    NumberOfReturns(u8),
    Class(u8),
    Channel(u8),
    // The class that the overlap flag does not go with.
    Overlap(u8),
    Nir(u16),
    // The scaled angle's 16 bits, unsigned.
    Angle(u16),
    // Bytes or entries wanted, 0 if over 2^64 - 1.
    NoRoom(u64),
    ExtraBytes(u16),
    VlrDataLength(u64),
    Attributes,
    NoPair(u8),
    Index(u64),
    // No. 1, the append: the file's version is not 1.2.
    NotVersion12,
    // No records are offered.
    NoRecords,
    // The count is neither the one believed nor that and the records offered, which stand last.
    CountNeither,
    // A count would pass 2^32 - 1.
    CountTooLarge,
    // No. 3, whole files: not a version and format that has a way up, or down.
    OtherVersionOrFormat,
    // EVLRs or a waveform start are there.
    EvlrsOrWaveforms,
    // The counts have no place in an old header.
    CountsTooLargeForOld,
    // No. 11, the waveform packets: they start before the end of the points or beyond the file.
    WaveformStart,
    // No. 6, the columns: the points' format does not have the field.
    FieldLacking,
    // No. 8, extra bytes by name: no VLR describes the extra bytes.
    NoDescriptors,
    // The data of that VLR is not a multiple of 192 bytes.
    DescriptorBytes,
    // A descriptor has a type above 10.
    DataType,
    // The descriptors speak of more extra bytes than a record has.
    AttributeSizes,
    // No descriptor has the name.
    NameNotFound,
    // No. 14, coordinate keys: no VLR holds the directory of keys.
    NoDirectory,
    // The directory is shorter than its keys.
    DirectoryShort,
    // A key is not above the one before it.
    KeysNotRising,
    // A key points to a record that holds no values of keys.
    UnknownLocation,
    // A key points to a record that is not there.
    TargetAbsent,
    // A value ends beyond the record that it stands in.
    TargetBeyond,
    // The directory does not have the key.
    KeyNotFound,
    // More keys are to be written than a VLR holds.
    TooManyKeys,
    // No. 9, the site sheet: a total would pass 2^64 - 1.
    TotalTooLarge,
}

// A refusal and the number of the record that it speaks of, 0 where it names none.
#[derive(Clone, Copy)]
pub struct Refused {
    pub refusal: Refusal,
    pub record: u64,
}

// By itself a refusal names no record.
impl From<Refusal> for Refused {
    ghost use Rattle.refusal.specs.Refused.{at_record};

    ghost from_gives = { λ refusal refused. refused ≡ at_record refusal 0 };

    fn from(refusal: Refusal) -> Refused {
        Refused { refusal, record: 0 }
    }
}

// A refusal as document 01 returns it: number, value and record number.
#[derive(Clone, Copy)]
pub struct Row {
    pub number: u8,
    pub value: u64,
    pub record: u64,
}

impl Refusal {
    // The row's number in the table.
    pub fn number(self) -> u8
        ensures { result ≡ number_of self }
    {
        match self {
            Refusal::Short(_) => 1,
            Refusal::Signature(_) => 2,
            Refusal::Version(_) => 3,
            Refusal::HeaderSize(_) => 4,
            Refusal::Format(_) => 5,
            Refusal::Compressed(_) => 6,
            Refusal::FormatForVersion(_) => 7,
            Refusal::RecordLength(_) => 8,
            Refusal::PointOffset(_) => 9,
            Refusal::Allowance(_) => 10,
            Refusal::VlrExtent(_) => 11,
            Refusal::PointExtent(_) => 12,
            Refusal::EvlrExtent(_) => 13,
            Refusal::EvlrStart(_) => 14,
            Refusal::ReturnNumber(_) => 15,
            Refusal::NumberOfReturns(_) => 16,
            Refusal::Class(_) => 17,
            Refusal::Channel(_) => 18,
            Refusal::Overlap(_) => 19,
            Refusal::Nir(_) => 20,
            Refusal::Angle(_) => 21,
            Refusal::NoRoom(_) => 22,
            Refusal::ExtraBytes(_) => 23,
            Refusal::VlrDataLength(_) => 24,
            Refusal::Attributes => 25,
            Refusal::NoPair(_) => 26,
            Refusal::Index(_) => 27,
            Refusal::NotVersion12 => 28,
            Refusal::NoRecords => 29,
            Refusal::CountNeither => 30,
            Refusal::CountTooLarge => 31,
            Refusal::OtherVersionOrFormat => 32,
            Refusal::EvlrsOrWaveforms => 33,
            Refusal::CountsTooLargeForOld => 34,
            Refusal::WaveformStart => 35,
            Refusal::FieldLacking => 36,
            Refusal::NoDescriptors => 37,
            Refusal::DescriptorBytes => 38,
            Refusal::DataType => 39,
            Refusal::AttributeSizes => 40,
            Refusal::NameNotFound => 41,
            Refusal::NoDirectory => 42,
            Refusal::DirectoryShort => 43,
            Refusal::KeysNotRising => 44,
            Refusal::UnknownLocation => 45,
            Refusal::TargetAbsent => 46,
            Refusal::TargetBeyond => 47,
            Refusal::KeyNotFound => 48,
            Refusal::TooManyKeys => 49,
            Refusal::TotalTooLarge => 50,
        }
    }

    // The row's value in the table.
    pub fn value(self) -> u64
        ensures { result ≡ value_of self }
    {
        match self {
            Refusal::Short(v) => v,
            Refusal::Signature(v) => v as u64,
            Refusal::Version(v) => v as u64,
            Refusal::HeaderSize(v) => v as u64,
            Refusal::Format(v) => v as u64,
            Refusal::Compressed(v) => v as u64,
            Refusal::FormatForVersion(v) => v as u64,
            Refusal::RecordLength(v) => v as u64,
            Refusal::PointOffset(v) => v as u64,
            Refusal::Allowance(v) => v,
            Refusal::VlrExtent(v) => v as u64,
            Refusal::PointExtent(v) => v,
            Refusal::EvlrExtent(v) => v,
            Refusal::EvlrStart(v) => v,
            Refusal::ReturnNumber(v) => v as u64,
            Refusal::NumberOfReturns(v) => v as u64,
            Refusal::Class(v) => v as u64,
            Refusal::Channel(v) => v as u64,
            Refusal::Overlap(v) => v as u64,
            Refusal::Nir(v) => v as u64,
            Refusal::Angle(v) => v as u64,
            Refusal::NoRoom(v) => v,
            Refusal::ExtraBytes(v) => v as u64,
            Refusal::VlrDataLength(v) => v,
            Refusal::Attributes => 0,
            Refusal::NoPair(v) => v as u64,
            Refusal::Index(v) => v,
            Refusal::NotVersion12 => 0,
            Refusal::NoRecords => 0,
            Refusal::CountNeither => 0,
            Refusal::CountTooLarge => 0,
            Refusal::OtherVersionOrFormat => 0,
            Refusal::EvlrsOrWaveforms => 0,
            Refusal::CountsTooLargeForOld => 0,
            Refusal::WaveformStart => 0,
            Refusal::FieldLacking => 0,
            Refusal::NoDescriptors => 0,
            Refusal::DescriptorBytes => 0,
            Refusal::DataType => 0,
            Refusal::AttributeSizes => 0,
            Refusal::NameNotFound => 0,
            Refusal::NoDirectory => 0,
            Refusal::DirectoryShort => 0,
            Refusal::KeysNotRising => 0,
            Refusal::UnknownLocation => 0,
            Refusal::TargetAbsent => 0,
            Refusal::TargetBeyond => 0,
            Refusal::KeyNotFound => 0,
            Refusal::TooManyKeys => 0,
            Refusal::TotalTooLarge => 0,
        }
    }

    // Number, value and record number together.
    pub fn row(self, record: u64) -> Row
        ensures { result ≡ row_of self «record» }
    {
        Row {
            number: self.number(),
            value: self.value(),
            record,
        }
    }
}

// The bytes of `count` records of `each` bytes, as 1 and 22 tell them: 0 if over 2^64 - 1.
pub fn wanted(count: u64, each: u64) -> u64
    ensures { result ≡ wanted_of (count * each) }
{
    count.checked_mul(each).unwrap_or(0)
}
