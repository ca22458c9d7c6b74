// A walker over the points of a lent file: each record in turn, and at the end 27. Added by document 01.
#![tactic(auto)]

ghost use Rattle.std.specs.Prelude.{◌≡◌};
ghost use Rattle.walker.specs.Begin.{first_place, refused_place, begin_of, walker_of};
ghost use Rattle.walker.specs.Walk.{whole_at, record_of, refusal_of, took_of, next_of};

use format::Format;
use outline::Outline;
use point::Point;
use refusal::{Refusal, Refused};

// Where a walker stands: the place of the next record, how many are left of the file's count, and the format, whose extra
// bytes make its length the header's record length.
#[derive(Clone, Copy)]
pub struct Place {
    pub format: Format,
    pub at: usize,
    pub left: u64,
    pub count: u64,
    pub start: Result<(), Refused>,
}

// What a walker answers, and where it stands then.
#[derive(Clone, Copy)]
pub struct Took {
    pub answer: Result<Point, Refused>,
    pub next: Place,
}

// The lent file, and where the walker stands in it.
#[derive(Clone, Copy)]
pub struct Walker<'a> {
    pub file: &'a [u8],
    pub place: Place,
}

impl<'a> Walker<'a> {
    // A walker before the first point of an accepted file, or one that repeats the file check's refusal.
    pub fn new(file: &'a [u8], allowance: u64) -> Walker<'a>
        ensures { result ≡ walker_of allowance file.entry }
    {
        let place = begin(file, allowance);
        Walker { file, place }
    }

    // The next record's point, and the walker moves on; after the last 27 with the point count, and the walker stays. A
    // refused walker repeats its refusal.
    pub fn next(&mut self) -> Result<Point, Refused>
        ensures { (result, self.new) ≡ next_of self.old }
    {
        let took = take_at(self.file, self.place);
        self.place = took.next;
        took.answer
    }
}

// Where a walker of this file starts: before its first point, or, refused by the file check, nowhere.
pub fn begin(file: &[u8], allowance: u64) -> Place
    ensures { result ≡ begin_of allowance file.now }
{
    match file::open(file, allowance) {
        Ok(header) => first_place(Outline::of(header)),
        Err(found) => refused_place(found.refusal, found.record),
    }
}

// The place before the first point of an accepted file.
fn first_place(o: Outline) -> Place
    ensures { result ≡ first_place o }
{
    Place {
        format: file::point_format(o),
        at: o.offset_to_point_data as usize,
        left: o.number_of_point_records,
        count: o.number_of_point_records,
        start: Ok(()),
    }
}

// A place from which a walker repeats this refusal.
fn refused_place(refusal: Refusal, record: u64) -> Place
    ensures { result ≡ refused_place refusal «record» }
{
    Place {
        format: Format::default(),
        at: 0,
        left: 0,
        count: 0,
        start: Err(Refused { refusal, record }),
    }
}

// What a walker at this place of the file answers, and its next place.
pub fn take_at(file: &[u8], place: Place) -> Took
    ensures { result ≡ took_of file.now place }
{
    let record = record_at(file, place);
    let Ok(point) = Point::read_from(record, place.format) else {
        return Took {
            answer: refusal_at(place),
            next: place,
        };
    };
    let start = place.start;
    let format = place.format;
    Took {
        answer: Ok(point),
        next: Place {
            format,
            at: place.at + record.len(),
            left: place.left - 1,
            count: place.count,
            start,
        },
    }
}

// The bytes of the next record as a part of the file, from which `point::extra_bytes` gives its extra bytes; none where
// there is no next record.
pub fn record_at(file: &[u8], place: Place) -> &[u8]
    ensures { result.now ≡ record_of file.now place }
{
    let start = place.start;
    let Ok(()) = start else {
        return &file[..0];
    };
    let Ok(n) = place.format.len() else {
        return &file[..0];
    };
    if place.left == 0 {
        return &file[..0];
    }
    whole_at(file, place.at, n as usize)
}

// What a walker answers where there is no next record: its refusal, or 27 with the count it holds.
fn refusal_at(place: Place) -> Result<Point, Refused>
    ensures { result ≡ refusal_of place }
{
    let start = place.start;
    match start {
        Ok(()) => Err(Refused {
            refusal: Refusal::Index(place.count),
            record: 0,
        }),
        Err(refused) => Err(refused),
    }
}

// n bytes from a place on, or none where they are not all there.
fn whole_at(s: &[u8], at: usize, n: usize) -> &[u8]
    ensures { result.now ≡ whole_at at n s.now }
{
    if s.len() < n {
        return &s[..0];
    }
    if s.len() - n < at {
        return &s[..0];
    }
    &s[at..at + n]
}
