// Where each field of a point record stands. `fields` and `Layout` are from src/raw/point.rs of las 0.11.2; the field table
// that they follow is a definition of the crate format.
#![tactic(auto)]

ghost use Rattle.std.specs.Prelude.{◌≡◌, cond};
ghost use Rattle.layout.specs.Layout.{slots_of, places_of, layout_of};

use format::{Field, Format};

// The places of the source id and of the fields after it, whether or not the format has them.
#[derive(Clone, Copy)]
pub struct Places {
    pub point_source_id: usize,
    pub gps_time: usize,
    pub color: usize,
    pub nir: usize,
    pub waveform: usize,
    pub extra_bytes: usize,
}

// The places that depend on the format, and the record's true length.
#[derive(Clone, Copy)]
pub struct Layout {
    pub user_data: usize,
    pub scan_angle: usize,
    pub point_source_id: usize,
    pub gps_time: Option<usize>,
    pub rgb: Option<usize>,
    pub nir: Option<usize>,
    pub record_len: usize,
}

// The fields of a format's record in their order. Legacy formats have the angle before the user data, extended ones after.
pub fn fields(format: Format) -> [Option<Field>; 13]
    ensures { result ≡ slots_of format }
{
    [
        Some(Field::X),
        Some(Field::Y),
        Some(Field::Z),
        Some(Field::Intensity),
        Some(Field::Flags),
        Some(pick(format.is_extended, Field::UserData, Field::ScanAngle)),
        Some(pick(format.is_extended, Field::ScanAngle, Field::UserData)),
        Some(Field::PointSourceId),
        format.has_gps_time.then_some(Field::GpsTime),
        format.has_color.then_some(Field::Color),
        format.has_nir.then_some(Field::Nir),
        format.has_waveform.then_some(Field::Waveform),
        Some(Field::ExtraBytes),
    ]
}

// The places of the source id and of the fields after it.
pub fn places_for(format: Format) -> Places
    ensures { result ≡ places_of format }
{
    let point_source_id = 18 + format::when(format.is_extended, 2);
    let gps_time = point_source_id + 2;
    let color = gps_time + format::when(format.has_gps_time, 8);
    let nir = color + format::when(format.has_color, 6);
    let waveform = nir + format::when(format.has_nir, 2);
    let extra_bytes = waveform + format::when(format.has_waveform, 29);
    Places {
        point_source_id,
        gps_time,
        color,
        nir,
        waveform,
        extra_bytes,
    }
}

impl Layout {
    // The layout of a format's record.
    pub fn for_format(format: Format) -> Layout
        ensures { result ≡ layout_of format }
    {
        let at = places_for(format);
        Layout {
            user_data: 17,
            scan_angle: 16 + format::when(format.is_extended, 2),
            point_source_id: at.point_source_id,
            gps_time: format.has_gps_time.then_some(at.gps_time),
            rgb: format.has_color.then_some(at.color),
            nir: format.has_nir.then_some(at.nir),
            record_len: at.extra_bytes + (format.extra_bytes as usize),
        }
    }
}

// One of two fields.
fn pick(test: bool, yes: Field, no: Field) -> Field
    ensures { result ≡ cond test yes no }
{
    if test { yes } else { no }
}
