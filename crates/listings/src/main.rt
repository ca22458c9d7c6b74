// Lists one file after another, so that the gate sees every kind of part and every refusal that a file can cause. `stdin` has
// the files, each after its length as a little-endian u32; `stdout` has what document 01's parts program prints for each, as
// the harness in oracle/ works it out from document 01 alone (`oracle/run FOLDER --write-replay`), never from this program.
#![tactic(auto)]

ghost use Rattle.std.specs.Prelude.{◌+◌, ◌≤◌, length};

use std::io;

// As many bytes as are read.
const BYTES: usize = 65536;

fn main(rt: HostRuntime) -> io::Result<()> {
    let mut files = [0u8; BYTES];
    let n = input::read_full(&rt, &mut files)?;
    list_all(&rt, &files[..n])
}

// Lists the files of a slice.
fn list_all(rt: &HostRuntime, files: &[u8]) -> io::Result<()> {
    let mut at: usize = 0;
    // Stays: where the next file begins is known only from the length of this one.
    while files.len() - at >= 4 {
        let end = end_of(files, at);
        listing::list(rt, &files[at + 4..end])?;
        at = end;
    }
    Ok(())
}

// Where the file ends whose length stands at a place; all the rest where that is too long.
fn end_of(files: &[u8], at: usize) -> usize
    requires { at + 4 ≤ length files.now }
    ensures { (at + 4 ≤ result) × (result ≤ length files.now) }
{
    let bytes = le::u32_at(files, at) as usize;
    if files.len() - at - 4 < bytes {
        return files.len();
    }
    at + 4 + bytes
}
