// The walker over a file's points for C and Rust. A walker's place crosses the boundary as seven numbers that the caller keeps: the
// format (a format word), the place of the next record, how many records are left, the count, and, where the file check refused,
// number, value and record number; where it did not, three zeros. Rows are those of the crate words, and a point is the 24 numbers
// of the crate capi_point. A crate of its own, apart from capi_file: each static library then reads points in one place, where the
// compiler puts the reader itself and no call.
#![tactic(auto)]

ghost use Rattle.std.specs.Prelude.{◌≡◌};
ghost use Rattle.walker.specs.Begin.{begin_of};
ghost use Rattle.capi_walker.specs.Rows.{start_row, place_with, place_numbers, place_from, next_row, record_part};

use refusal::{Refused, Row};
use walker::Place;

// A walker's place before the first point of the file, or, where the file is refused, one that repeats the refusal.
#[unsafe(no_mangle)]
pub extern "C" fn las_file_walker(file: &[u8], allowance: u64, place: &mut [u64; 7])
    ensures { place.new ≡ place_numbers (begin_of allowance file.now) }
{
    *place = place_numbers(walker::begin(file, allowance));
}

// The next point as 24 numbers, and the place after it; a place with a refusal repeats it, and else, at the end, 27 with the
// count. Where there is no point the place and the numbers stay as they were.
#[unsafe(no_mangle)]
pub extern "C" fn las_file_next(
    file: &[u8],
    place: &mut [u64; 7],
    row: &mut [u64; 3],
    numbers: &mut [u64; 24],
)
    ensures { (place.new, row.new, numbers.new) ≡ next_row file.now place.old numbers.old }
{
    if place[4] != 0 {
        words::tell(row, place[4], place[5], place[6]);
        return;
    }
    let took = walker::take_at(file, place_from(place));
    let answer = took.answer;
    match answer {
        Ok(point) => {
            let next = took.next;
            *place = numbers_with(next, accepted());
            *numbers = capi_point::numbers_of(point);
            words::tell(row, 0, 0, 0)
        }
        Err(refused) => words::refuse(row, refused.refusal, refused.record),
    }
}

// Where the next record stands in the file, and how many bytes it has; two zeros where there is no next record.
#[unsafe(no_mangle)]
pub extern "C" fn las_file_record(file: &[u8], place: &[u64; 7], part: &mut [u64; 2])
    ensures { part.new ≡ record_part file.now place.now }
{
    if place[4] != 0 {
        *part = [0, 0];
        return;
    }
    let record = walker::record_at(file, place_from(place));
    words::tell_part(part, place[1], record.len() as u64)
}

// A place as seven numbers.
fn place_numbers(place: Place) -> [u64; 7]
    ensures { result ≡ place_numbers place }
{
    let start = place.start;
    numbers_with(place, start_row(start))
}

// A place as seven numbers, with the row of how the walk began. A step has that row without asking, and goes by no table of refusals.
fn numbers_with(place: Place, told: Row) -> [u64; 7]
    ensures { result ≡ place_with place told }
{
    let format = place.format;
    [
        words::format_word(format) as u64,
        place.at as u64,
        place.left,
        place.count,
        told.number as u64,
        told.value,
        told.record,
    ]
}

// How a walk began, as a row; three zeros where the file was accepted.
fn start_row(start: Result<(), Refused>) -> Row
    ensures { result ≡ start_row start }
{
    match start {
        Ok(()) => accepted(),
        Err(refused) => refused.refusal.row(refused.record),
    }
}

// The row of a walk over an accepted file.
fn accepted() -> Row
    ensures { result ≡ start_row (Ok tt) }
{
    Row {
        number: 0,
        value: 0,
        record: 0,
    }
}

// The place of seven numbers, of a file that was accepted.
fn place_from(n: &[u64; 7]) -> Place
    ensures { result ≡ place_from n.now }
{
    Place {
        format: words::format_of((n[0] % 4294967296) as u32),
        at: n[1] as usize,
        left: n[2],
        count: n[3],
        start: Ok(()),
    }
}
