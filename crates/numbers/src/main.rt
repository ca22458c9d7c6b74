// Runs document 01's "Numbers on each side" on flags and angles, and document 02's on ranks, through the public calls: plainly by
// `Flags::to_two_bytes`, `to_three_bytes`, `ScanAngle::to_rank` and `to_scaled`, strictly by `convert::to_old` and `convert::to_new`
// over a whole record of format 6 or 1; what was upgraded goes down again. `stdout` has the lines that the documents say, written from
// them and never from this program. What is printed is outside the logic, so these functions promise only that they are safe and end.
#![tactic(auto)]

use angle::ScanAngle;
use flags::Flags;
use refusal::{Refusal, Refused};
use std::io;

// The bytes of records of format 6 and of format 1, without extra bytes.
const NEW: usize = 30;

const OLD: usize = 28;

fn main(rt: HostRuntime) -> io::Result<()> {
    flags(&rt)?;
    angles(&rt)
}

// The numbers of flags.
fn flags(rt: &HostRuntime) -> io::Result<()> {
    flags_down(rt, 0x11, 0, 2)?;
    flags_down(rt, 0x21, 0x48, 2)?;
    flags_down(rt, 0x11, 0x08, 12)?;
    flags_down(rt, 0x11, 0, 28)?;
    flags_down(rt, 0x88, 0x10, 40)?;
    flags_down(rt, 0x81, 0, 2)?;
    flags_down(rt, 0x11, 0, 32)?;
    flags_down(rt, 0x11, 0x10, 2)?;
    flags_up(rt, 0x51, 0x22)?;
    flags_up(rt, 0x09, 0x1c)
}

// Those of angles and ranks.
fn angles(rt: &HostRuntime) -> io::Result<()> {
    angle_down(rt, 249)?;
    angle_down(rt, 250)?;
    angle_down(rt, -250)?;
    angle_down(rt, 15083)?;
    angle_down(rt, 15084)?;
    angle_down(rt, -15083)?;
    angle_down(rt, -15084)?;
    angle_down(rt, 21249)?;
    angle_down(rt, 21250)?;
    angle_down(rt, -21416)?;
    angle_down(rt, -21417)?;
    angle_up(rt, 1)?;
    angle_up(rt, 3)?;
    angle_up(rt, -128)?;
    angle_up(rt, 90)?;
    angle_up(rt, 91)?;
    angle_up(rt, 104)?;
    angle_up(rt, -90)?;
    angle_up(rt, -91)
}

// Extended flags made old, plainly and strictly.
fn flags_down(rt: &HostRuntime, a: u8, b: u8, c: u8) -> io::Result<()> {
    print_three(rt, a, b, c)?;
    print!(rt; " plainly ")?;
    plain_two(rt, Flags::ThreeByte(a, b, c))?;
    print!(rt; ", strictly ")?;
    strict_two(rt, a, b, c)?;
    println!(rt; "")
}

fn plain_two(rt: &HostRuntime, flags: Flags) -> io::Result<()> {
    match flags.to_two_bytes() {
        Ok((x, y)) => print_two(rt, x, y),
        Err(refusal) => print_refused(rt, refusal, 0),
    }
}

fn strict_two(rt: &HostRuntime, a: u8, b: u8, c: u8) -> io::Result<()> {
    let new = new_record(a, b, c, 0);
    let mut old = [0u8; OLD];
    match convert::to_old(&new, 6, 0, 1, &mut old) {
        Ok(_) => print_two(rt, old[14], old[15]),
        Err(Refused { refusal, record }) => print_refused(rt, refusal, record),
    }
}

// Old flags made extended, as the Rust does and by the upgrade, and what was upgraded made old again.
fn flags_up(rt: &HostRuntime, a: u8, b: u8) -> io::Result<()> {
    print_two(rt, a, b)?;
    print!(rt; " plainly ")?;
    let three = Flags::TwoByte(a, b).to_three_bytes();
    print_three(rt, three.a, three.b, three.c)?;
    print!(rt; ", upgraded ")?;
    upgraded_three(rt, a, b)?;
    println!(rt; "")
}

fn upgraded_three(rt: &HostRuntime, a: u8, b: u8) -> io::Result<()> {
    let old = old_record(a, b, 0);
    let mut new = [0u8; NEW];
    match convert::to_new(&old, 1, 0, 1, &mut new) {
        Ok(_) => {
            print_three(rt, new[14], new[15], new[16])?;
            print!(rt; ", down again ")?;
            strict_two(rt, new[14], new[15], new[16])
        }
        Err(Refused { refusal, record }) => print_refused(rt, refusal, record),
    }
}

// A scaled angle made a rank, plainly and strictly.
fn angle_down(rt: &HostRuntime, n: i16) -> io::Result<()> {
    let bits = n.cast_unsigned();
    print!(rt; "scaled ")?;
    print_signed16(rt, bits)?;
    print!(rt; " plainly ")?;
    print_signed8(rt, ScanAngle::Scaled(n).to_rank().cast_unsigned())?;
    print!(rt; ", strictly ")?;
    strict_rank(rt, bits)?;
    println!(rt; "")
}

fn strict_rank(rt: &HostRuntime, bits: u16) -> io::Result<()> {
    let new = new_record(0, 0, 0, bits);
    let mut old = [0u8; OLD];
    match convert::to_old(&new, 6, 0, 1, &mut old) {
        Ok(_) => print_signed8(rt, old[16]),
        Err(Refused { refusal, record }) => print_refused(rt, refusal, record),
    }
}

// A rank made scaled, plainly and by the upgrade, and what was upgraded made a rank again.
fn angle_up(rt: &HostRuntime, r: i8) -> io::Result<()> {
    let bits = r.cast_unsigned();
    print!(rt; "rank ")?;
    print_signed8(rt, bits)?;
    print!(rt; " plainly ")?;
    print_signed16(rt, ScanAngle::Rank(r).to_scaled().cast_unsigned())?;
    print!(rt; ", upgraded ")?;
    upgraded_angle(rt, bits)?;
    println!(rt; "")
}

fn upgraded_angle(rt: &HostRuntime, rank: u8) -> io::Result<()> {
    let old = old_record(0, 0, rank);
    let mut new = [0u8; NEW];
    match convert::to_new(&old, 1, 0, 1, &mut new) {
        Ok(_) => {
            let bits = le::u16_at(&new, 18);
            print_signed16(rt, bits)?;
            print!(rt; ", down again ")?;
            strict_rank(rt, bits)
        }
        Err(Refused { refusal, record }) => print_refused(rt, refusal, record),
    }
}

// A record of format 6 with these flags and this angle, and one of format 1; all else is zero.
fn new_record(a: u8, b: u8, c: u8, angle: u16) -> [u8; NEW] {
    let two = angle.to_le_bytes();
    let mut new = [0u8; NEW];
    new[14] = a;
    new[15] = b;
    new[16] = c;
    new[18] = two[0];
    new[19] = two[1];
    new
}

fn old_record(a: u8, b: u8, rank: u8) -> [u8; OLD] {
    let mut old = [0u8; OLD];
    old[14] = a;
    old[15] = b;
    old[16] = rank;
    old
}

// A refusal's number and value, and its record where it has one.
fn print_refused(rt: &HostRuntime, refusal: Refusal, record: u64) -> io::Result<()> {
    let number = refusal.number();
    let value = refusal.value();
    print!(rt; "{number} with {value}")?;
    if record > 0 {
        print!(rt; " in record {record}")?;
    }
    Ok(())
}

fn print_two(rt: &HostRuntime, a: u8, b: u8) -> io::Result<()> {
    print!(rt; "(0x{a:02x},0x{b:02x})")
}

fn print_three(rt: &HostRuntime, a: u8, b: u8, c: u8) -> io::Result<()> {
    print!(rt; "(0x{a:02x},0x{b:02x},{c})")
}

// The signed numbers of 8 and of 16 bits.
fn print_signed8(rt: &HostRuntime, bits: u8) -> io::Result<()> {
    let n = bits.cast_signed();
    print!(rt; "{n}")
}

fn print_signed16(rt: &HostRuntime, bits: u16) -> io::Result<()> {
    let n = bits.cast_signed();
    print!(rt; "{n}")
}
