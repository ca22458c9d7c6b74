// The file check: document 01, "When a file is accepted", rules 1 to 8 in their order.
#![tactic(auto)]

ghost use Rattle.std.specs.Prelude.{Ok, ◌≡◌, ◌-◌};
ghost use Rattle.header.specs.Judged.{read_of};
ghost use Rattle.file.specs.Rules.{checked_of, opened_of};
ghost use Rattle.file.specs.Points.{point_format};
ghost use Rattle.format.specs.Fields.{record_bytes};

use format::Format;
use header::Header;
use outline::Outline;
use rules::NotAccepted;

// Whether the file is accepted, by rules 1 to 8. The time grows with the records walked and not with the points.
pub fn check(file: &[u8], allowance: u64) -> Result<u64, NotAccepted>
    ensures { result ≡ checked_of allowance file.now }
{
    judge(file, allowance, Header::read_from(file)?)
}

// The header of an accepted file. Refused as `check` refuses.
pub fn open(file: &[u8], allowance: u64) -> Result<Header, NotAccepted>
    ensures { result ≡ opened_of allowance file.now }
{
    let header = Header::read_from(file)?;
    judge(file, allowance, header)?;
    Ok(header)
}

// What `check` answers of a file whose header was read.
fn judge(file: &[u8], allowance: u64, header: Header) -> Result<u64, NotAccepted>
    requires { read_of file.now ≡ Ok header }
    ensures { result ≡ checked_of allowance file.now }
{
    let version = header.version;
    let block = version.header_size()?;
    extents::check(
        file,
        allowance,
        block as usize,
        version.minor,
        Outline::of(header),
    )
}

// The format of a file's points, whose extra bytes fill the header's record length. Of a header that the check refuses:
// `Format::default` where `Format::new` refuses the code, and no extra bytes where the record length is below the format's.
pub fn point_format(o: Outline) -> Format
    ensures { result ≡ point_format o }
{
    let Ok(mut format) = Format::new(o.point_data_record_format) else {
        return Format::default();
    };
    let extra = beyond(format, o.point_data_record_length);
    format.extra_bytes = extra;
    format
}

// The bytes that a record of this length has beyond this format's, 0 where it is shorter. No u16 is longer than an
// overlong format.
fn beyond(format: Format, record_length: u16) -> u16
    ensures { result ≡ record_length - record_bytes format }
{
    let Ok(n) = format.len() else {
        return 0;
    };
    if record_length < n {
        return 0;
    }
    record_length - n
}
