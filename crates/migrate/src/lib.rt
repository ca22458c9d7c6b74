// Whole files, old to new and back: a file of version 1.2 with format 1 or 3 becomes one of 1.4 with format 6 or 7, and such a file becomes
// 1.2 again. Document 02, No. 3: a question, which has no destination, and a writing call, each way.
#![tactic(auto)]

ghost use Rattle.std.specs.Prelude.{◌≡◌, true, false, ◌++◌, ◌+◌, ◌-◌, ◌^◌, ◌≤◌, ◌<◌, length, drop};
ghost use Rattle.extents.specs.Extents.{points_end};
ghost use Rattle.convert.specs.Demand.{convert_of};
ghost use Rattle.migrate.specs.Migrate.{goes_of, other_of, point_bytes, extra_in, run_verdict, front_of, header_verdict, file_verdict, done_by, migrated_of};
ghost use Rattle.migrate.specs.Steps.{Ready, Goer, Inside, Fronted, Around, around_of};

use header::Header;
use judge::Run;
use outline::Outline;
use refusal::{Refusal, Refused};

// Whether a file of version 1.2 goes to 1.4, and the bytes that it has there. Refused as the file check refuses; then 32 where it is not
// 1.2 with format 1 or 3; then 4, 9 and 8 where header size, point offset or record length would not fit its field.
pub fn ask_new(file: &[u8], allowance: u64) -> Result<Run, Refused>
    ensures { result ≡ file_verdict true allowance file.now }
{
    ask(file, allowance, true)
}

// Whether a file of version 1.4 goes to 1.2, and the bytes that it has there. Refused as the file check refuses; then 32 where it is not
// 1.4 with format 6 or 7; 33 where it has EVLRs or a waveform start; 34 where its counts have no place in an old header; then 15 to 21
// with the number of the first point that does not fit.
pub fn ask_old(file: &[u8], allowance: u64) -> Result<Run, Refused>
    ensures { result ≡ file_verdict false allowance file.now }
{
    ask(file, allowance, false)
}

// Writes the file as one of version 1.4 to the front of the destination and leaves what lies past it. Refused, with nothing written, as
// the question refuses, and then with 22 and the bytes of the new file where the destination is shorter.
pub fn to_new(file: &[u8], allowance: u64, dst: &mut [u8]) -> Result<usize, Refused>
    ensures { (result, dst.new) ≡ migrated_of true allowance file.now dst.old }
{
    write(file, allowance, true, dst)
}

// Writes the file as one of version 1.2, in the same way.
pub fn to_old(file: &[u8], allowance: u64, dst: &mut [u8]) -> Result<usize, Refused>
    ensures { (result, dst.new) ≡ migrated_of false allowance file.now dst.old }
{
    write(file, allowance, false, dst)
}

// The question either way; `up` says whether the file goes to 1.4.
fn ask(file: &[u8], allowance: u64, up: bool) -> Result<Run, Refused>
    ensures { result ≡ file_verdict up allowance file.now }
{
    let header = file::open(file, allowance)?;
    ask_accepted(file, header, up)
}

// The question of an accepted file with this header.
fn ask_accepted(file: &[u8], header: Header, up: bool) -> Result<Run, Refused>
    requires { Ready header file.now }
    ensures { result ≡ header_verdict up header file.now }
{
    goes(header, up)?;
    let o = Outline::of(header);
    let points = ask_points(file, o, up)?;
    let n = Outline::of(other(header, up));
    Ok(Run {
        plan: points.plan,
        bytes: new_length(file.len(), o, n),
    })
}

// The writing call either way.
fn write(file: &[u8], allowance: u64, up: bool, dst: &mut [u8]) -> Result<usize, Refused>
    ensures { (result, dst.new) ≡ migrated_of up allowance file.now dst.old }
{
    let header = file::open(file, allowance)?;
    write_accepted(file, header, up, dst)
}

// An accepted file with this header, written.
fn write_accepted(file: &[u8], header: Header, up: bool, dst: &mut [u8]) -> Result<usize, Refused>
    requires { Ready header file.now }
    ensures { (result, dst.new) ≡ done_by up header file.now dst.old (header_verdict up header file.now) }
{
    goes(header, up)?;
    write_goer(file, header, up, dst)
}

// A file whose header goes, written. The points come first, since they may be refused; without room they are only asked for, since what
// refuses them comes before 22.
fn write_goer(file: &[u8], header: Header, up: bool, dst: &mut [u8]) -> Result<usize, Refused>
    requires { Goer up header file.now }
    ensures { (result, dst.new) ≡ done_by up header file.now dst.old (header_verdict up header file.now) }
{
    let o = Outline::of(header);
    let new = other(header, up);
    let n = Outline::of(new);
    let total = new_length(file.len(), o, n);
    if dst.len() < total {
        let _ = ask_points(file, o, up)?;
        return Err(Refusal::NoRoom(total as u64).into());
    }
    let from = n.offset_to_point_data as usize;
    let to = end_of(n);
    let _ = convert_points(file, o, up, &mut dst[from..to])?;
    write_around(file, new, o, to, dst);
    Ok(total)
}

// Whether the header goes.
fn goes(header: Header, up: bool) -> Result<(), Refusal>
    ensures { result ≡ goes_of up header }
{
    if up {
        header_convert::ask_new(header)
    } else {
        header_convert::ask_old(header)
    }
}

// The header in the other version, of one that goes.
fn other(header: Header, up: bool) -> Header
    requires { goes_of up header ≡ Ok tt }
    ensures { result ≡ other_of up header }
{
    if up {
        header_convert::to_new(header)
    } else {
        header_convert::to_old(header)
    }
}

// Whether the points go: document 01's question, of the bytes where they lie.
fn ask_points(file: &[u8], o: Outline, up: bool) -> Result<Run, Refused>
    requires { Inside o file.now }
    ensures { result ≡ run_verdict up o file.now }
{
    let format = file::point_format(o);
    let code = o.point_data_record_format;
    let extra = format.extra_bytes;
    let count = o.number_of_point_records;
    let points = &file[o.offset_to_point_data as usize..end_of(o)];
    if up {
        judge::ask_new(points, code, extra, count)
    } else {
        judge::ask_old(points, code, extra, count)
    }
}

// The points, converted to the front of a destination that is lent for them alone.
fn convert_points(file: &[u8], o: Outline, up: bool, dst: &mut [u8]) -> Result<usize, Refused>
    requires { Inside o file.now }
    ensures { (result, dst.new) ≡ convert_of up o.point_data_record_format (extra_in o) o.number_of_point_records (point_bytes o file.now) dst.old }
{
    let format = file::point_format(o);
    let code = o.point_data_record_format;
    let extra = format.extra_bytes;
    let count = o.number_of_point_records;
    let points = &file[o.offset_to_point_data as usize..end_of(o)];
    if up {
        convert::to_new(points, code, extra, count, dst)
    } else {
        convert::to_old(points, code, extra, count, dst)
    }
}

// What lies before the points and after them, around those that end at `to` in the destination.
fn write_around(file: &[u8], new: Header, o: Outline, to: usize, dst: &mut [u8])
    requires { Around new o to file.now dst.old }
    ensures { dst.new ≡ around_of new o to file.now dst.old }
{
    let end = end_of(o);
    write_front(file, new, o, dst);
    let rest = &file[end..];
    let _ = lent::put(&mut dst[to..to + rest.len()], rest);
}

// The header with its padding, and then all that lies between it and the points, the VLRs among them.
fn write_front(file: &[u8], new: Header, o: Outline, dst: &mut [u8])
    requires { Fronted new o file.now dst.old }
    ensures { dst.new ≡ front_of new o file.now ++ drop new.offset_to_point_data dst.old }
{
    let _ = header_write::write_to(new, header::padding(file), dst);
    let vlrs = &file[o.header_size as usize..o.offset_to_point_data as usize];
    let at = new.header_size as usize;
    let _ = lent::put(&mut dst[at..at + vlrs.len()], vlrs);
}

// Where the points end.
fn end_of(o: Outline) -> usize
    requires { points_end o < 2 ^ 64 }
    ensures { result ≡ points_end o }
{
    let offset = o.offset_to_point_data as usize;
    let count = o.number_of_point_records as usize;
    offset + count * (o.point_data_record_length as usize)
}

// The bytes of the new file: as many as lie before the end of its points, and what follows the points of the old one.
fn new_length(bytes: usize, o: Outline, n: Outline) -> usize
    requires { (points_end o ≤ bytes) × (points_end n + (bytes - points_end o) < 2 ^ 64) }
    ensures { result ≡ points_end n + (bytes - points_end o) }
{
    end_of(n) + (bytes - end_of(o))
}
