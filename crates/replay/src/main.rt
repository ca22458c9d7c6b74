// Replays a list of calls whose answers the Rust las 0.11.2 gave, and prints this library's answers in its words.
//
// `stdin` has the calls, 12 bytes each: which call, and its arguments x and y, each a little-endian u32; `stdout` has a line
// for each, `call x y number value`, where number is document 01's refusal number or 0. Both files were written by the
// harness in oracle/ from the Rust's own answers (`oracle/run FOLDER --write-replay`), never from this program's: every code
// and attribute set, each field of the flags at its boundaries, every rank, angles around each rounding, f32 patterns of
// each kind.
#![tactic(auto)]

use le::float::F32;
use std::io;

// The bytes of a call, and of as many calls as are read at once.
const CALL: usize = 12;

const READ: usize = 49152;

// What a call answered: the refusal's number, or 0, and the value.
#[derive(Clone, Copy)]
struct Answer {
    number: u64,
    value: u64,
}

fn main(rt: HostRuntime) -> io::Result<()> {
    // Enough for 131,072 calls; what lies past them is not read.
    for _ in 0..32usize {
        if !replay_some(&rt)? {
            return Ok(());
        }
    }
    Ok(())
}

// Replays the calls of one read, and says whether there may be more.
fn replay_some(rt: &HostRuntime) -> io::Result<bool> {
    let mut calls = [0u8; READ];
    let n = input::read_full(rt, &mut calls)?;
    replay_all(rt, &calls[..n])?;
    Ok(n == READ)
}

// Replays the calls of a slice, one after the other.
fn replay_all(rt: &HostRuntime, calls: &[u8]) -> io::Result<()> {
    for call in calls.chunks_exact(CALL) {
        print(
            rt,
            le::u32_at(call, 0),
            le::u32_at(call, 4),
            le::u32_at(call, 8),
        )?;
    }
    Ok(())
}

// Prints a call and its answer.
fn print(rt: &HostRuntime, op: u32, x: u32, y: u32) -> io::Result<()> {
    let a = called(op, x, y);
    let number = a.number;
    let value = a.value;
    println!(rt; "{op} {x} {y} {number} {value}")
}

// The answer of call op; an unknown one answers number 255.
fn called(op: u32, x: u32, y: u32) -> Answer {
    if op < 10 {
        return format_answer(op, x);
    }
    if op < 20 {
        return reading(op, x);
    }
    if op < 30 {
        return flags_answer(op, x, y);
    }
    angle_answer(op, x, y)
}

fn format_answer(op: u32, x: u32) -> Answer {
    let mut row = [0u64; 3];
    match op {
        1 => capi::las_format_new((x % 256) as u8, &mut row),
        3 => capi::las_format_len(x, &mut row),
        4 => capi::las_format_to_u8(x, &mut row),
        2 => return worked(capi::las_format_extend(x) as u64),
        _ => return unknown(),
    }
    Answer {
        number: row[0],
        value: row[1],
    }
}

fn reading(op: u32, x: u32) -> Answer {
    match op {
        10 => worked(capi::las_flags_return_number(x) as u64),
        11 => worked(capi::las_flags_number_of_returns(x) as u64),
        12 => worked(capi::las_flags_scan_direction(x) as u64),
        13 => said(capi::las_flags_is_synthetic(x)),
        14 => said(capi::las_flags_is_key_point(x)),
        15 => said(capi::las_flags_is_withheld(x)),
        16 => said(capi::las_flags_is_overlap(x)),
        17 => worked(capi::las_flags_scanner_channel(x) as u64),
        18 => said(capi::las_flags_is_edge_of_flight_line(x)),
        19 => worked(capi::las_flags_class(x) as u64),
        _ => unknown(),
    }
}

fn flags_answer(op: u32, x: u32, y: u32) -> Answer {
    match op {
        20 => {
            let mut row = [0u64; 3];
            capi::las_flags_to_two_bytes(x, &mut row);
            Answer {
                number: row[0],
                value: row[1],
            }
        }
        21 => worked(capi::las_flags_to_three_bytes(x) as u64),
        22 => worked(capi::las_flags_clear_overlap_class(x) as u64),
        23 => said(capi::las_flags_eq(x, y)),
        _ => unknown(),
    }
}

// Signed answers and floats go by their bits.
fn angle_answer(op: u32, x: u32, y: u32) -> Answer {
    match op {
        30 => worked(capi::las_angle_to_rank(x).cast_unsigned() as u64),
        31 => worked(capi::las_angle_to_scaled(x).cast_unsigned() as u64),
        32 => worked(degree_bits(capi::las_angle_to_degrees(x)) as u64),
        33 => worked(capi::las_angle_from_degrees(degrees(x)) as u64),
        34 => said(capi::las_angle_eq(x, y)),
        _ => unknown(),
    }
}

// The f32 with these bits; any NaN's bits give a NaN.
fn degrees(bits: u32) -> f32 {
    let x = F32::from_bits(bits);
    x.value
}

// The bits of an f32 that is no NaN.
fn degree_bits(value: f32) -> u32 {
    let x = F32 { value, nan: 0 };
    x.to_bits()
}

fn worked(value: u64) -> Answer {
    Answer { number: 0, value }
}

fn said(yes: bool) -> Answer {
    Answer {
        number: 0,
        value: yes as u64,
    }
}

fn unknown() -> Answer {
    Answer {
        number: 255,
        value: 0,
    }
}
