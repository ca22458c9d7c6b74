// Records added to a lent file as stores of whole sectors, one call for one store, so that a caller can bring each to the card before the
// next. From document 02, No. 1: "point sectors ascending, each with the old header, then sector 0 with the new".
#![tactic(auto)]

ghost use Rattle.std.specs.Prelude.{◌≡◌, ◌+◌, ◌-◌, ◌*◌, ◌≤◌, ◌<◌, min, max, length};
ghost use Rattle.refusal.specs.Table.{wanted_of};
ghost use Rattle.sectors.specs.Sectors.{point_stores, stores_of, sector_of, with_records, with_header, stored_of};
ghost use Rattle.sectors.specs.Sector.{sector_at};

use offer::Sweep;
use refusal::Refusal;

// A sector as the caller writes it to the card: its first byte and its bytes in the file, 512 but for the file's last.
#[derive(Clone, Copy)]
pub struct Sector {
    pub at: u64,
    pub len: u64,
}

// How many stores a sweep takes: a sector for each that its records touch, and then sector 0.
pub fn stores(sweep: Sweep) -> u64
    ensures { result ≡ stores_of sweep }
{
    point_stores(sweep) + 1
}

// Makes the k-th store of a sweep in the file, counted from 0, and tells which sector changed: the k-th that the records touch, with the
// records' bytes in it; after these sector 0, with the header's counts and bounds. Past the last it does nothing. Refused with 1 where
// there are fewer bytes than the sweep's, then with 22 where they would end beyond the file; it leaves the file then.
pub fn store(
    file: &mut [u8],
    sweep: Sweep,
    records: &[u8],
    bounds: [u64; 6],
    k: u64,
) -> Result<Option<Sector>, Refusal>
    ensures { (result, file.new) ≡ stored_of sweep records.now bounds k file.old }
{
    if (records.len() as u64) < sweep.bytes {
        return Err(Refusal::Short(sweep.bytes));
    }
    let room = file.len() as u64;
    if room < sweep.at {
        return Err(Refusal::NoRoom(end_wanted(sweep)));
    }
    if room - sweep.at < sweep.bytes {
        return Err(Refusal::NoRoom(end_wanted(sweep)));
    }
    let points = point_stores(sweep);
    if k < points {
        return store_records(file, sweep, records, sweep.at / 512 + k);
    }
    if k == points {
        store_header(file, sweep, bounds);
        return sector_from(file.len() as u64, 0);
    }
    Ok(None)
}

// How many sectors the records touch.
fn point_stores(sweep: Sweep) -> u64
    ensures { result ≡ point_stores sweep }
{
    sweep.bytes / 512 + (sweep.at % 512 + sweep.bytes % 512 + 511) / 512
}

// The records' end, 0 if it is over 2^64 - 1.
fn end_wanted(sweep: Sweep) -> u64
    ensures { result ≡ wanted_of (sweep.at + sweep.bytes) }
{
    if 18446744073709551615 - sweep.at < sweep.bytes {
        return 0;
    }
    sweep.at + sweep.bytes
}

// The records' bytes in the sector of this number, which they touch.
fn store_records(
    file: &mut [u8],
    sweep: Sweep,
    records: &[u8],
    number: u64,
) -> Result<Option<Sector>, Refusal>
    requires { (sweep.bytes ≤ length records.now) × (sweep.at + sweep.bytes ≤ length file.old) × (512 * number < sweep.at + sweep.bytes) × (sweep.at < 512 * number + 512) }
    ensures { (result ≡ sector_of number (length file.old)) × (file.new ≡ with_records sweep records.now number file.old) }
{
    let at = sweep.at;
    let start = 512 * number;
    let from = larger(at, start);
    let to = start + smaller(512, at + sweep.bytes - start);
    let first = (from - at) as usize;
    let last = (to - at) as usize;
    store::set_bytes(file, from as usize, &records[first..last]);
    sector_from(file.len() as u64, start)
}

// The header's counts and bounds.
fn store_header(file: &mut [u8], sweep: Sweep, bounds: [u64; 6])
    ensures { file.new ≡ with_header sweep bounds file.old }
{
    store::set_u32(file, 107, sweep.points);
    store::set_u32(file, 111, sweep.first);
    store::set_u32(file, 115, sweep.second);
    store::set_u32(file, 119, sweep.third);
    store::set_u32(file, 123, sweep.fourth);
    store::set_u32(file, 127, sweep.fifth);
    store::set_u64(file, 179, bounds[0]);
    store::set_u64(file, 187, bounds[1]);
    store::set_u64(file, 195, bounds[2]);
    store::set_u64(file, 203, bounds[3]);
    store::set_u64(file, 211, bounds[4]);
    store::set_u64(file, 219, bounds[5]);
}

// The sector that begins at a byte of a file of so many.
fn sector_from(len: u64, at: u64) -> Result<Option<Sector>, Refusal>
    requires { at ≤ len }
    ensures { result ≡ Ok (Some (sector_at at (min 512 (len - at)))) }
{
    Ok(Some(Sector {
        at,
        len: smaller(512, len - at),
    }))
}

// The larger and the smaller of two numbers.

fn larger(a: u64, b: u64) -> u64
    ensures { result ≡ max a b }
{
    if a < b { b } else { a }
}

fn smaller(a: u64, b: u64) -> u64
    ensures { result ≡ min a b }
{
    if a < b { a } else { b }
}
