// One record of the strict conversion and of the upgrade, added by document 01: whether a point can be made old with every
// field the same, and an old point made new. The bytes are the point writer's.
#![tactic(auto)]

ghost use Rattle.std.specs.Prelude.{◌≡◌};
ghost use Rattle.angle.specs.Angle.{nearest_rank};
ghost use Rattle.strict.specs.Fit.{overlap_goes, readings_fit, flags_fit_of, nir_fit_of, rank_fits, angle_fit_of, fields_fit, fit_of};
ghost use Rattle.strict.specs.Upgrade.{upgraded_flags, upgraded_with, upgraded_of, upgraded_to};

use angle::ScanAngle;
use flags::Flags;
use point::Point;
use refusal::Refusal;

// The class that stands for overlap in two-byte flags, and the one that the Rust takes for it too.
const OVERLAP_CLASSIFICATION_CODE: u8 = 12;

const READ_AS_OVERLAP_TOO: u8 = 28;

// The scaled angles whose nearest rank, 6n/1000 with halves away from zero, is one of the standard's, -90 to 90: 6 * 15083 is
// 90498, the last multiple of 6 below 90500.
const LOWEST_SCALED: i16 = -15083;

const HIGHEST_SCALED: i16 = 15083;

// Whether every field of a point goes into the old format; the first that does not is refused, in the order return number,
// number of returns, class, channel, overlap, near infrared, angle.
pub fn check(point: Point) -> Result<(), Refusal>
    ensures { result ≡ fit_of point }
{
    let flags = point.flags;
    let nir = point.nir;
    let scan_angle = point.scan_angle;
    check_fields(flags, nir, scan_angle)
}

// The same of the fields that it depends on, for a caller that has read no others.
pub fn check_fields(flags: Flags, nir: Option<u16>, scan_angle: ScanAngle) -> Result<(), Refusal>
    ensures { result ≡ fields_fit flags nir scan_angle }
{
    check_flags(flags)?;
    check_nir(nir)?;
    check_angle(scan_angle)
}

// An old point made new: the flags moved, the angle scaled, no near infrared. A point with three-byte flags stays as it is.
pub fn upgraded(point: Point) -> Point
    ensures { result ≡ upgraded_of point }
{
    let scan_angle = point.scan_angle;
    upgraded_to(point, scan_angle.to_scaled())
}

// The same for a caller that has the scaled angle, as a loop that lends the table of angles.
pub fn upgraded_to(point: Point, scaled: i16) -> Point
    ensures { result ≡ upgraded_to point scaled }
{
    let flags = point.flags;
    match flags {
        Flags::TwoByte(a, b) => upgraded_old(point, a, b, scaled),
        Flags::ThreeByte(_, _, _) => point,
    }
}

// Whether the flags fit, by what they read; so two bytes of class 28 do not, which one old reader takes for overlap.
fn check_flags(flags: Flags) -> Result<(), Refusal>
    ensures { result ≡ flags_fit_of flags }
{
    let return_number = flags.return_number();
    let number_of_returns = flags.number_of_returns();
    let class = flags.class();
    let scanner_channel = flags.scanner_channel();
    let overlap = flags.is_overlap();
    check_readings(
        return_number,
        number_of_returns,
        class,
        scanner_channel,
        overlap,
    )
}

// The first reading that two bytes have no room for, and then an overlap flag that they would not read back.
fn check_readings(
    return_number: u8,
    number_of_returns: u8,
    class: u8,
    scanner_channel: u8,
    overlap: bool,
) -> Result<(), Refusal>
    ensures { result ≡ readings_fit return_number number_of_returns class scanner_channel overlap }
{
    if return_number > 7 {
        return Err(Refusal::ReturnNumber(return_number));
    }
    if number_of_returns > 7 {
        return Err(Refusal::NumberOfReturns(number_of_returns));
    }
    if class > 31 {
        return Err(Refusal::Class(class));
    }
    if scanner_channel > 0 {
        return Err(Refusal::Channel(scanner_channel));
    }
    if overlap_goes(overlap, class) {
        return Ok(());
    }
    Err(Refusal::Overlap(class))
}

// Whether an overlap flag is what both old readers take from the class.
fn overlap_goes(overlap: bool, class: u8) -> bool
    ensures { result ≡ overlap_goes overlap class }
{
    if class == READ_AS_OVERLAP_TOO {
        return false;
    }
    overlap == (class == OVERLAP_CLASSIFICATION_CODE)
}

// The near infrared fits where it is missing or 0: the old formats have none.
fn check_nir(nir: Option<u16>) -> Result<(), Refusal>
    ensures { result ≡ nir_fit_of nir }
{
    match nir {
        Some(n) if n != 0 => Err(Refusal::Nir(n)),
        _ => Ok(()),
    }
}

// A rank is judged as the scaled angle that it is brought up to.
fn check_angle(scan_angle: ScanAngle) -> Result<(), Refusal>
    ensures { result ≡ angle_fit_of scan_angle }
{
    check_scaled(scan_angle.to_scaled())
}

fn check_scaled(n: i16) -> Result<(), Refusal>
    ensures { result ≡ angle_fit_of (ScanAngle.Scaled n) }
{
    if scaled_fits(n) {
        return Ok(());
    }
    Err(Refusal::Angle(n.cast_unsigned()))
}

// Whether the nearest rank is one of the standard's.
fn scaled_fits(n: i16) -> bool
    ensures { result ≡ rank_fits (nearest_rank n) }
{
    n >= LOWEST_SCALED && n <= HIGHEST_SCALED
}

// A point with these two bytes of flags made new, with this scaled angle.
fn upgraded_old(point: Point, a: u8, b: u8, scaled: i16) -> Point
    ensures { result ≡ upgraded_with point a b scaled }
{
    let flags = moved_flags(a, b);
    let gps_time = point.gps_time;
    let color = point.color;
    let waveform = point.waveform;
    Point {
        x: point.x,
        y: point.y,
        z: point.z,
        intensity: point.intensity,
        flags,
        scan_angle: ScanAngle::Scaled(scaled),
        user_data: point.user_data,
        point_source_id: point.point_source_id,
        gps_time,
        color,
        waveform,
        nir: None,
    }
}

// The flags of an old record as a new one has them: class kept, channel 0. Direction and edge keep their places, bits 6 and 7;
// synthetic, key point and withheld move from bits 5 to 7 down to bits 0 to 2; the overlap flag, bit 3, is set exactly for class 12.
fn moved_flags(a: u8, b: u8) -> Flags
    ensures { result ≡ upgraded_flags (Flags.TwoByte a b) }
{
    let first = a / 8 % 8 * 16 + a % 8;
    let moved = a / 64 * 64 + b / 32;
    let class = b % 32;
    if class == OVERLAP_CLASSIFICATION_CODE {
        return Flags::ThreeByte(first, moved + 8, class);
    }
    Flags::ThreeByte(first, moved, class)
}
