// Replays a list of records that the Rust las 0.11.2 read and wrote, and prints what this library reads and writes of them.
//
// `stdin` has the records, each in a slot of 512 bytes: five little-endian u32 words, kind, x, y, room and count, then `count`
// bytes, then zeros. `stdout` has for each slot a line `read number value ..`, and where the read is not refused a line
// `write number value ..` of what was read, written into `room` bytes. Number is document 01's refusal number or 0; only
// with 0 the rest of the line follows.
//   kind 1  a point, read in format word x and written in format word y
//   kind 2  a VLR, or an EVLR if x is not 0, written as an EVLR if y is not 0
//   kind 3  a header, written as one of version 1.y; between its two lines stands `end number value`, the end of points
// After `read` come the boundary's numbers in decimal, then its texts and last the extra bytes, the data or the padding;
// after `write` the bytes written. Texts and bytes stand as an x and then two hexadecimal digits for each byte.
//
// Both files were written by the harness in oracle/ from the Rust's own answers (`oracle/run FOLDER --write-replay`), but for near
// infrared 0, which the Rust reads as none and document 02 as a number; never from this program's. oracle/src/replay_records.rs says
// how the records are chosen.
#![tactic(auto)]

use std::io;

// The bytes of a slot, of its five words, and of as many slots as are read at once.
const SLOT: usize = 512;

const WORDS: usize = 20;

const READ: usize = 65536;

// The most room that a slot may ask for.
const ROOM: usize = 512;

fn main(rt: HostRuntime) -> io::Result<()> {
    // Enough for 4,096 slots; what lies past them is not read.
    for _ in 0..32usize {
        if !replay_some(&rt)? {
            return Ok(());
        }
    }
    Ok(())
}

// Replays the slots of one read, and says whether there may be more.
fn replay_some(rt: &HostRuntime) -> io::Result<bool> {
    let mut slots = [0u8; READ];
    let n = input::read_full(rt, &mut slots)?;
    replay_all(rt, &slots[..n])?;
    Ok(n == READ)
}

// Replays the slots of a slice, one after the other.
fn replay_all(rt: &HostRuntime, slots: &[u8]) -> io::Result<()> {
    for slot in slots.chunks_exact(SLOT) {
        replay(rt, slot)?;
    }
    Ok(())
}

// Replays a slot; prints nothing of one that asks for more than there is.
fn replay(rt: &HostRuntime, slot: &[u8]) -> io::Result<()> {
    let mut space = [0u8; ROOM];
    let room = le::u32_at(slot, 12) as usize;
    let end = WORDS + le::u32_at(slot, 16) as usize;
    if ROOM < room || slot.len() < end {
        return Ok(());
    }
    let x = le::u32_at(slot, 4);
    let y = le::u32_at(slot, 8);
    let record = &slot[WORDS..end];
    // `0..room`, here and below: of `..room` the count would have to be shown.
    let dst = &mut space[0..room];
    match le::u32_at(slot, 0) {
        1 => replay_point(rt, record, x, y, dst),
        2 => replay_vlr(rt, record, x != 0, y != 0, dst),
        3 => replay_header(rt, record, y, dst),
        _ => Ok(()),
    }
}

// A point, read in one format and written in another.
fn replay_point(rt: &HostRuntime, s: &[u8], from: u32, to: u32, dst: &mut [u8]) -> io::Result<()> {
    let mut row = [0u64; 3];
    let mut numbers = [0u64; 24];
    capi_point::las_point_read(s, from, &mut row, &mut numbers);
    print_row(rt, "read", row[0], row[1])?;
    if row[0] != 0 {
        return print_end(rt);
    }
    let extra = point::extra_bytes(s, words::format_of(from));
    print_point(rt, &numbers, extra)?;
    write_point(rt, &numbers, extra, to, dst)
}

// The rest of a point's line.
fn print_point(rt: &HostRuntime, numbers: &[u64; 24], extra: &[u8]) -> io::Result<()> {
    print_numbers(rt, numbers)?;
    print_bytes(rt, extra)?;
    print_end(rt)
}

// A point written in a format.
fn write_point(
    rt: &HostRuntime,
    numbers: &[u64; 24],
    extra: &[u8],
    to: u32,
    dst: &mut [u8],
) -> io::Result<()> {
    let mut row = [0u64; 3];
    capi_point::las_point_write(numbers, extra, to, dst, &mut row);
    print_written(rt, row[0], row[1], dst)
}

// A VLR or EVLR, read as the one and written as the other or the same.
fn replay_vlr(rt: &HostRuntime, s: &[u8], from: bool, to: bool, dst: &mut [u8]) -> io::Result<()> {
    let mut row = [0u64; 3];
    let mut numbers = [0u64; 3];
    let mut user_id = [0u8; 16];
    let mut description = [0u8; 32];
    capi_vlr::las_vlr_read(
        s,
        from,
        &mut row,
        &mut numbers,
        &mut user_id,
        &mut description,
    );
    print_row(rt, "read", row[0], row[1])?;
    if row[0] != 0 {
        return print_end(rt);
    }
    let data = vlr::data(s, from);
    print_vlr(rt, &numbers, &user_id, &description, data)?;
    write_vlr(rt, to, &numbers, &user_id, &description, data, dst)
}

// The rest of a VLR's or EVLR's line.
fn print_vlr(
    rt: &HostRuntime,
    numbers: &[u64; 3],
    user_id: &[u8; 16],
    description: &[u8; 32],
    data: &[u8],
) -> io::Result<()> {
    print_numbers(rt, numbers)?;
    print_bytes(rt, user_id)?;
    print_bytes(rt, description)?;
    print_bytes(rt, data)?;
    print_end(rt)
}

// A VLR or EVLR written as the one or the other.
fn write_vlr(
    rt: &HostRuntime,
    to: bool,
    numbers: &[u64; 3],
    user_id: &[u8; 16],
    description: &[u8; 32],
    data: &[u8],
    dst: &mut [u8],
) -> io::Result<()> {
    let mut row = [0u64; 3];
    capi_vlr::las_vlr_write(to, numbers, user_id, description, data, dst, &mut row);
    print_written(rt, row[0], row[1], dst)
}

// A header, its end of points, and the header as one of version 1.minor.
fn replay_header(rt: &HostRuntime, s: &[u8], minor: u32, dst: &mut [u8]) -> io::Result<()> {
    let mut row = [0u64; 3];
    let mut numbers = [0u64; 51];
    let mut guid = [0u8; 16];
    let mut system = [0u8; 32];
    let mut software = [0u8; 32];
    capi_header::las_header_read(
        s,
        &mut row,
        &mut numbers,
        &mut guid,
        &mut system,
        &mut software,
    );
    print_row(rt, "read", row[0], row[1])?;
    if row[0] != 0 {
        return print_end(rt);
    }
    let padding = header::padding(s);
    print_header(rt, &numbers, &guid, &system, &software, padding)?;
    print_end_of_points(rt, s)?;
    numbers[3] = minor as u64;
    write_header(rt, &numbers, &guid, &system, &software, padding, dst)
}

// The rest of a header's line.
fn print_header(
    rt: &HostRuntime,
    numbers: &[u64; 51],
    guid: &[u8; 16],
    system: &[u8; 32],
    software: &[u8; 32],
    padding: &[u8],
) -> io::Result<()> {
    print_numbers(rt, numbers)?;
    print_bytes(rt, guid)?;
    print_bytes(rt, system)?;
    print_bytes(rt, software)?;
    print_bytes(rt, padding)?;
    print_end(rt)
}

// The line of the end of points of the header at the front of s.
fn print_end_of_points(rt: &HostRuntime, s: &[u8]) -> io::Result<()> {
    let mut row = [0u64; 3];
    capi_header::las_header_end_of_points(s, &mut row);
    print_row(rt, "end", row[0], row[1])?;
    print_end(rt)
}

// A header and its padding, written.
fn write_header(
    rt: &HostRuntime,
    numbers: &[u64; 51],
    guid: &[u8; 16],
    system: &[u8; 32],
    software: &[u8; 32],
    padding: &[u8],
    dst: &mut [u8],
) -> io::Result<()> {
    let mut row = [0u64; 3];
    capi_header_write::las_header_write(numbers, guid, system, software, padding, dst, &mut row);
    print_written(rt, row[0], row[1], dst)
}

// The line of a write, with the bytes that it put at the front of dst.
fn print_written(rt: &HostRuntime, number: u64, value: u64, dst: &[u8]) -> io::Result<()> {
    print_row(rt, "write", number, value)?;
    let end = value as usize;
    if number == 0 && end <= dst.len() {
        print_bytes(rt, &dst[0..end])?;
    }
    print_end(rt)
}

// How a line begins.
fn print_row(rt: &HostRuntime, name: &str, number: u64, value: u64) -> io::Result<()> {
    print!(rt; "{name}")?;
    print_number(rt, number)?;
    print_number(rt, value)
}

fn print_end(rt: &HostRuntime) -> io::Result<()> {
    println!(rt; "")
}

fn print_number(rt: &HostRuntime, n: u64) -> io::Result<()> {
    print!(rt; " {n}")
}

fn print_numbers(rt: &HostRuntime, numbers: &[u64]) -> io::Result<()> {
    for number in numbers {
        print_number(rt, *number)?;
    }
    Ok(())
}

fn print_bytes(rt: &HostRuntime, bytes: &[u8]) -> io::Result<()> {
    print!(rt; " x")?;
    for byte in bytes {
        print_byte(rt, *byte)?;
    }
    Ok(())
}

fn print_byte(rt: &HostRuntime, byte: u8) -> io::Result<()> {
    print!(rt; "{byte:02x}")
}
