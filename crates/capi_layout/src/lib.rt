// Where each field of a point record stands, for C and Rust. A layout crosses the boundary as 26 numbers: for each field in the
// order X, Y, Z, intensity, flags, user data, scan angle, source id, time, colour, near infrared, waveform, extra bytes its first
// byte and its bytes, which are 0 where the format lacks it. A format is a word of the crate words.
#![tactic(auto)]

ghost use Rattle.std.specs.Prelude.{◌≡◌, cond};
ghost use Rattle.words.specs.Words.{format_of_word};
ghost use Rattle.format.specs.Fields.{size_of};
ghost use Rattle.capi_layout.specs.Numbers.{layout_numbers};

use format::{Field, Format};
use layout::Layout;

// The first byte and the bytes of each field of a record of the format.
#[unsafe(no_mangle)]
pub extern "C" fn las_layout(format: u32, numbers: &mut [u64; 26])
    ensures { numbers.new ≡ layout_numbers (format_of_word format) }
{
    *numbers = numbers_of(words::format_of(format));
}

// A format's layout as numbers.
fn numbers_of(f: Format) -> [u64; 26]
    ensures { result ≡ layout_numbers f }
{
    let layout = Layout::for_format(f);
    let at = layout::places_for(f);
    [
        0,
        bytes(true, Field::X, f),
        4,
        bytes(true, Field::Y, f),
        8,
        bytes(true, Field::Z, f),
        12,
        bytes(true, Field::Intensity, f),
        14,
        bytes(true, Field::Flags, f),
        layout.user_data as u64,
        bytes(true, Field::UserData, f),
        layout.scan_angle as u64,
        bytes(true, Field::ScanAngle, f),
        at.point_source_id as u64,
        bytes(true, Field::PointSourceId, f),
        at.gps_time as u64,
        bytes(f.has_gps_time, Field::GpsTime, f),
        at.color as u64,
        bytes(f.has_color, Field::Color, f),
        at.nir as u64,
        bytes(f.has_nir, Field::Nir, f),
        at.waveform as u64,
        bytes(f.has_waveform, Field::Waveform, f),
        at.extra_bytes as u64,
        bytes(true, Field::ExtraBytes, f),
    ]
}

// A field's bytes, where the format has it.
fn bytes(has: bool, field: Field, f: Format) -> u64
    ensures { result ≡ cond has (size_of f field) 0 }
{
    if has {
        return field.size(f) as u64;
    }
    0
}
