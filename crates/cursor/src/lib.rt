// The parts of a file, told one after the other in file order: the header with its padding, the VLRs, a gap, the points, a
// gap, the later records and the gap after them; empty gaps are left out.
#![tactic(auto)]

ghost use Rattle.std.specs.Prelude.{◌≡◌, ◌<◌, ◌-◌};
ghost use Rattle.extents.specs.Extents.{points_end};
ghost use Rattle.cursor.specs.Parts.{between, later_kind, later_start};
ghost use Rattle.cursor.specs.Cursor.{plan_of, first_of, started_of, told, record_step, header_step, points_step, vlrs_step, later_step, between_step, step_of};

use outline::Outline;
use refusal::Refused;

#[derive(Clone, Copy)]
pub enum Kind {
    Header,
    Vlr,
    Gap,
    Points,
    Evlr,
    Waveform,
}

// A part: what it is, its first byte and its bytes.
#[derive(Clone, Copy)]
pub struct Part {
    pub kind: Kind,
    pub start: u64,
    pub length: u64,
}

// The numbers of an outline that a cursor goes by: the first byte of the points and the one after them, and the later records'; where
// there are none, these start at the end of the points.
#[derive(Clone, Copy)]
pub struct Plan {
    pub header_size: u64,
    pub number_of_vlrs: u32,
    pub points: u64,
    pub end: u64,
    pub waveform: bool,
    pub start_of_later_records: u64,
    pub number_of_later_records: u32,
}

// What is told next: the header, a VLR or the gap after them, the points, the gap after them, a later record or the last gap.
#[derive(Clone, Copy)]
pub enum Stage {
    Header,
    Vlrs,
    Points,
    Between,
    Later,
}

// A place in a file, and how many records are left of its stage.
#[derive(Clone, Copy)]
pub struct Cursor {
    pub stage: Stage,
    pub at: u64,
    pub left: u32,
    pub plan: Plan,
}

// A part and the cursor after it.
#[derive(Clone, Copy)]
pub struct Step {
    pub part: Part,
    pub next: Cursor,
}

// The cursor at the first part of the file, after the file check.
pub fn start(file: &[u8], allowance: u64) -> Result<Cursor, Refused>
    ensures { result ≡ started_of allowance file.now }
{
    let header = file::open(file, allowance)?;
    Ok(first(Outline::of(header)))
}

// The cursor at the first part.
fn first(o: Outline) -> Cursor
    requires { points_end o < 18446744073709551616 }
    ensures { result ≡ first_of (plan_of o) }
{
    let points = o.offset_to_point_data as u64;
    let end = points + o.number_of_point_records * o.point_data_record_length as u64;
    let plan = Plan {
        header_size: o.header_size as u64,
        number_of_vlrs: o.number_of_variable_length_records,
        points,
        end,
        waveform: o.waveform,
        start_of_later_records: start_of_later_records(o, end),
        number_of_later_records: o.number_of_later_records,
    };
    Cursor {
        stage: Stage::Header,
        at: 0,
        left: 0,
        plan,
    }
}

// Where the later records start; without any, the end of the points.
fn start_of_later_records(o: Outline, end: u64) -> u64
    requires { end ≡ points_end o }
    ensures { result ≡ later_start o }
{
    if o.number_of_later_records == 0 {
        return end;
    }
    o.start_of_later_records
}

// The part at the cursor and the cursor after it; none after the last part, and at a record that is not all there.
pub fn next(file: &[u8], c: Cursor) -> Option<Step>
    ensures { result ≡ step_of file.now c }
{
    let stage = c.stage;
    match stage {
        Stage::Header => step_header(c.plan),
        Stage::Vlrs => step_vlrs(file, c),
        Stage::Points => step_points(c.plan),
        Stage::Between => step_between(file, c),
        Stage::Later => step_later(file, c),
    }
}

// The header with its padding, then the VLRs.
fn step_header(p: Plan) -> Option<Step>
    ensures { result ≡ header_step p }
{
    told(
        Kind::Header,
        0,
        p.header_size,
        Cursor {
            stage: Stage::Vlrs,
            at: p.header_size,
            left: p.number_of_vlrs,
            plan: p,
        },
    )
}

// A VLR; after the last the gap before the points, or the points.
fn step_vlrs(file: &[u8], c: Cursor) -> Option<Step>
    ensures { result ≡ vlrs_step file.now c }
{
    let p = c.plan;
    if c.left > 0 {
        return step_record(file, Kind::Vlr, false, p.points, c);
    }
    if c.at < p.points {
        return told(
            Kind::Gap,
            c.at,
            p.points - c.at,
            Cursor {
                stage: Stage::Points,
                at: p.points,
                left: 0,
                plan: p,
            },
        );
    }
    step_points(p)
}

// The points, though there be none, then what lies after them.
fn step_points(p: Plan) -> Option<Step>
    ensures { result ≡ points_step p }
{
    told(
        Kind::Points,
        p.points,
        distance(p.points, p.end),
        Cursor {
            stage: Stage::Between,
            at: p.end,
            left: 0,
            plan: p,
        },
    )
}

// The gap after the points, or what comes after it.
fn step_between(file: &[u8], c: Cursor) -> Option<Step>
    ensures { result ≡ between_step file.now c }
{
    let p = c.plan;
    let next = Cursor {
        stage: Stage::Later,
        at: p.start_of_later_records,
        left: p.number_of_later_records,
        plan: p,
    };
    if c.at < p.start_of_later_records {
        return told(Kind::Gap, c.at, p.start_of_later_records - c.at, next);
    }
    step_later(file, next)
}

// A later record; after the last the gap at the end of the file.
fn step_later(file: &[u8], c: Cursor) -> Option<Step>
    ensures { result ≡ later_step file.now c }
{
    let len = file.len() as u64;
    if c.left > 0 {
        let p = c.plan;
        return step_record(file, later_kind(p.waveform), true, len, c);
    }
    if c.at < len {
        let p = c.plan;
        return told(
            Kind::Gap,
            c.at,
            len - c.at,
            Cursor {
                stage: Stage::Later,
                at: len,
                left: 0,
                plan: p,
            },
        );
    }
    None
}

// What the later records are.
fn later_kind(waveform: bool) -> Kind
    ensures { result ≡ later_kind waveform }
{
    if waveform {
        return Kind::Waveform;
    }
    Kind::Evlr
}

// The record at the cursor, which ends at or before `to`.
fn step_record(file: &[u8], kind: Kind, extended: bool, to: u64, c: Cursor) -> Option<Step>
    requires { 0 < c.left }
    ensures { result ≡ record_step file.now kind extended to c }
{
    let Ok(n) = vlr::measure(part_of(file, c.at, to), extended) else {
        return None;
    };
    let stage = c.stage;
    let plan = c.plan;
    told(
        kind,
        c.at,
        n as u64,
        Cursor {
            stage,
            at: c.at + n as u64,
            left: c.left - 1,
            plan,
        },
    )
}

// The bytes from one place up to another, as far as the file goes.
fn part_of(file: &[u8], from: u64, to: u64) -> &[u8]
    ensures { result.now ≡ between from to file.now }
{
    let len = file.len() as u64;
    if to < from {
        return &file[..0];
    }
    if len < from {
        return &file[..0];
    }
    if to < len {
        return &file[from as usize..to as usize];
    }
    &file[from as usize..]
}

// The bytes from one place up to another; 0 where the second lies before the first.
fn distance(from: u64, to: u64) -> u64
    ensures { result ≡ to - from }
{
    if to < from {
        return 0;
    }
    to - from
}

// A part and where to go on.
fn told(kind: Kind, start: u64, n: u64, next: Cursor) -> Option<Step>
    ensures { result ≡ told kind start n next }
{
    Some(Step {
        part: Part {
            kind,
            start,
            length: n,
        },
        next,
    })
}
