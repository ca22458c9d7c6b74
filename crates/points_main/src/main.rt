// Walks the points of a file: reads the first 65,536 bytes of standard input, and prints x, y, z and class of each point, and then
// the refusal that ends the walk: 27 with the point count, or the file check's. The walker is the struct that holds the lent file,
// and `walk` calls its methods.
#![tactic(auto)]

ghost use Rattle.std.specs.Prelude.{◌≡◌, false, IfOk};
ghost use Rattle.points_main.specs.Walked.{Goes};

use point::Point;
use refusal::{Refused, Row};
use std::io;
use walker::Walker;

// As many bytes as are read.
const BYTES: usize = 65536;

// More records than 65,536 bytes hold, so that no file is refused for it.
const ALLOWANCE: u64 = 1300;

fn main(rt: HostRuntime) -> io::Result<()> {
    let mut file = [0u8; BYTES];
    let n = input::read_full(&rt, &mut file)?;
    walk(&rt, &file[..n])
}

// Prints each answer of a walker over the file until it refuses, or until nothing more can be written.
fn walk(rt: &HostRuntime, file: &[u8]) -> io::Result<()> {
    let mut walker = Walker::new(file, ALLOWANCE);
    while print_walked(rt, walker.next())? {}
    Ok(())
}

// Prints what a walker answered, and says whether the walk goes on: after a refusal it does not.
fn print_walked(rt: &HostRuntime, walked: Result<Point, Refused>) -> io::Result<bool>
    ensures { IfOk result (λ goes. Goes walked goes) }
{
    match walked {
        Ok(point) => print_point(rt, point),
        Err(Refused { refusal, record }) => print_refused(rt, refusal.row(record)),
    }
}

// A point's line, after which the walk goes on.
fn print_point(rt: &HostRuntime, point: Point) -> io::Result<bool> {
    let flags = point.flags;
    let class = flags.class();
    let x = point.x;
    let y = point.y;
    let z = point.z;
    println!(rt; "{x} {y} {z} {class}")?;
    Ok(true)
}

// A refusal's line, after which there is nothing more to print.
fn print_refused(rt: &HostRuntime, row: Row) -> io::Result<bool>
    ensures { IfOk result (λ goes. goes ≡ false) }
{
    let number = row.number;
    let value = row.value;
    let record = row.record;
    println!(rt; "refused {number} {value} {record}")?;
    Ok(false)
}
