// The fields of a point that old and new records hold in different ways, for a caller that looks at no others.
ghost use Rattle.std.specs.Prelude.{◌≡◌};
ghost use Rattle.point.specs.Read.{sized_of, read_of};
ghost use Rattle.point.specs.Marks.{marks_read};

use angle::ScanAngle;
use flags::Flags;
use format::Format;
use refusal::Refusal;

#[derive(Clone, Copy)]
pub struct Marks {
    pub flags: Flags,
    pub scan_angle: ScanAngle,
    pub nir: Option<u16>,
}

impl Marks {
    // The marks of the point in the first bytes of s, refused as the point is.
    pub fn read_from(s: &[u8], format: Format) -> Result<Marks, Refusal>
        ensures { result ≡ marks_read (read_of format s.now) }
    {
        match format.len() {
            Ok(n) => read_sized(s, format, n as usize),
            Err(refusal) => Err(refusal),
        }
    }
}

// Those of a format whose record has n bytes.
fn read_sized(s: &[u8], format: Format, n: usize) -> Result<Marks, Refusal>
    ensures { result ≡ marks_read (sized_of format n s.now) }
{
    if s.len() < n {
        return Err(Refusal::Short(n as u64));
    }
    let at = layout::places_for(format);
    Ok(Marks {
        flags: super::flags_at(s, format.is_extended),
        scan_angle: super::angle_at(s, format.is_extended),
        nir: super::nir_at(s, format.has_nir, at.nir),
    })
}
