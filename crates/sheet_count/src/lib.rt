// One file's points counted for the site sheet: by class, by return number, and the smallest and largest X, Y and Z, in one pass over
// the records. Added by document 02, No. 9.
#![tactic(auto)]

ghost use Rattle.std.specs.Prelude.{◌≡◌, ◌+◌, ◌*◌, ◌≤◌, ◌<◌, length};
ghost use Rattle.sheet_count.specs.Count.{both, both_extents, class_in, return_in, extent_in, tallied_at};
ghost use Rattle.sheet_count.specs.File.{counted_of};

use layout::Layout;
use refusal::Refused;

// The smallest and the largest of some stored numbers.
#[derive(Clone, Copy)]
pub struct Range {
    pub min: i32,
    pub max: i32,
}

// Those of X, Y and Z.
#[derive(Clone, Copy)]
pub struct Extent {
    pub x: Range,
    pub y: Range,
    pub z: Range,
}

// How many points there are, how many of each class and of each return number, 0 too, and their bounds.
#[derive(Clone, Copy)]
pub struct Tally {
    pub points: u64,
    pub classes: [u64; 256],
    pub returns: [u64; 16],
    pub bounds: Option<Extent>,
}

// The points of a file counted. Refused as the file check refuses.
pub fn count(file: &[u8], allowance: u64) -> Result<Tally, Refused>
    ensures { result ≡ counted_of allowance file.now }
{
    let begun = walker::begin(file, allowance);
    begun.start?;
    let format = begun.format;
    let stride = Layout::for_format(format).record_len;
    let n = begun.count as usize;
    Ok(tally_at(file, begun.at, stride, n, format.is_extended))
}

// n records counted, the first at `first` and each `stride` bytes after the one before it. The part of a record that is read has one
// length, so that its readers test none.
fn tally_at(s: &[u8], first: usize, stride: usize, n: usize, extended: bool) -> Tally
    requires { (20 ≤ stride) × (first + n * stride ≤ length s.now) }
    ensures { result ≡ tallied_at extended first stride n s.now }
{
    let mut classes = [0; 256];
    let mut returns = [0; 16];
    if n == 0 {
        return Tally {
            points: 0,
            classes,
            returns,
            bounds: None,
        };
    }
    let mut extent = extent_in(&s[first..first + 20]);
    for i in 0..n {
        let at = first + i * stride;
        let part = &s[at..at + 20];
        let class = class_in(part, extended);
        classes[class] += 1;
        let number = return_in(part, extended);
        returns[number] += 1;
        extent = both_extents(extent, extent_in(part));
    }
    Tally {
        points: n as u64,
        classes,
        returns,
        bounds: Some(extent),
    }
}

// The class of the point in a record, by whether its format is extended.
fn class_in(record: &[u8], extended: bool) -> usize
    ensures { (result ≡ class_in extended «record».now) × (result < 256) }
{
    if extended {
        return le::u8_at(record, 16) as usize;
    }
    (le::u8_at(record, 15) % 32) as usize
}

// Its return number, 0 too.
fn return_in(record: &[u8], extended: bool) -> usize
    ensures { (result ≡ return_in extended «record».now) × (result < 16) }
{
    if extended {
        return (le::u8_at(record, 14) % 16) as usize;
    }
    (le::u8_at(record, 14) % 8) as usize
}

// Its X, Y and Z, each smallest and largest at once.
fn extent_in(record: &[u8]) -> Extent
    ensures { result ≡ extent_in «record».now }
{
    let x = le::i32_at(record, 0);
    let y = le::i32_at(record, 4);
    let z = le::i32_at(record, 8);
    Extent {
        x: Range { min: x, max: x },
        y: Range { min: y, max: y },
        z: Range { min: z, max: z },
    }
}

// The smallest and largest of two extents together.
pub fn both_extents(a: Extent, b: Extent) -> Extent
    ensures { result ≡ both_extents a b }
{
    Extent {
        x: both_ranges(a.x, b.x),
        y: both_ranges(a.y, b.y),
        z: both_ranges(a.z, b.z),
    }
}

fn both_ranges(a: Range, b: Range) -> Range
    ensures { result ≡ both a b }
{
    Range {
        min: a.min.min(b.min),
        max: a.max.max(b.max),
    }
}
