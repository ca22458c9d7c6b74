// The append for C and Rust: whole, in a lent buffer; and begun, and then store by store, for whoever writes the sectors himself. A sweep
// crosses the boundary as eight numbers: where its records go, their bytes, and the header's counts with them.
#![tactic(auto)]

ghost use Rattle.std.specs.Prelude.{◌≡◌};
ghost use Rattle.offer.specs.Offer.{offer_of};
ghost use Rattle.sectors.specs.Sectors.{stores_of, stored_of};
ghost use Rattle.append.specs.Append.{appended_of};
ghost use Rattle.capi_append.specs.Rows.{sweep_from, appended_row, begun_row, stored_row};

use append::Appended;
use offer::{Offer, Sweep};
use refusal::Refused;

// Adds n records to the file, all stores one after the other; the row's value is 0 where they are added and 1 where they are already in.
#[unsafe(no_mangle)]
pub extern "C" fn las_append(
    file: &mut [u8],
    allowance: u64,
    records: &[u8],
    n: u64,
    bounds: &[u64; 6],
    believed: u64,
    row: &mut [u64; 3],
)
    ensures { (row.new, file.new) ≡ appended_row (appended_of allowance records.now n bounds.now believed file.old) }
{
    match append::append(file, allowance, records, n, *bounds, believed) {
        Ok(Appended::Added) => words::tell(row, 0, 0, 0),
        Ok(Appended::AlreadyIn) => words::tell(row, 0, 1, 0),
        Err(refused) => words::refuse(row, refused.refusal, refused.record),
    }
}

// Judges an offer and writes nothing into the file: the row's value is 0 where the records are to be added, by the sweep's stores, and 1
// where they are already in, which leaves the sweep as a refusal does.
#[unsafe(no_mangle)]
pub extern "C" fn las_append_begin(
    file: &[u8],
    allowance: u64,
    records: &[u8],
    n: u64,
    believed: u64,
    sweep: &mut [u64; 8],
    row: &mut [u64; 3],
)
    ensures { (row.new, sweep.new) ≡ begun_row (offer_of allowance records.now n believed file.now) sweep.old }
{
    match offer::judge(file, allowance, records, n, believed) {
        Ok(Offer::Add(w)) => {
            *sweep = [
                w.at,
                w.bytes,
                w.points as u64,
                w.first as u64,
                w.second as u64,
                w.third as u64,
                w.fourth as u64,
                w.fifth as u64,
            ];
            words::tell(row, 0, 0, 0)
        }
        Ok(Offer::AlreadyIn) => words::tell(row, 0, 1, 0),
        Err(refused) => words::refuse(row, refused.refusal, refused.record),
    }
}

// How many stores a sweep takes.
#[unsafe(no_mangle)]
pub extern "C" fn las_append_stores(sweep: &[u64; 8]) -> u64
    ensures { result ≡ stores_of (sweep_from sweep.now) }
{
    sectors::stores(sweep_of(sweep))
}

// Makes the k-th store of a sweep in the file, counted from 0: the sector's first byte and its bytes; the row's value is those bytes. Past
// the last store the value is 0, and both are 0.
#[unsafe(no_mangle)]
pub extern "C" fn las_append_store(
    file: &mut [u8],
    sweep: &[u64; 8],
    records: &[u8],
    bounds: &[u64; 6],
    k: u64,
    sector: &mut [u64; 2],
    row: &mut [u64; 3],
)
    ensures { (row.new, (sector.new, file.new)) ≡ stored_row (stored_of (sweep_from sweep.now) records.now bounds.now k file.old) sector.old }
{
    match sectors::store(file, sweep_of(sweep), records, *bounds, k) {
        Ok(Some(told)) => {
            *sector = [told.at, told.len];
            words::tell(row, 0, told.len, 0)
        }
        Ok(None) => {
            *sector = [0, 0];
            words::tell(row, 0, 0, 0)
        }
        Err(refusal) => words::refuse(row, refusal, 0),
    }
}

// The sweep of eight numbers; of a count the low 32 bits.
fn sweep_of(n: &[u64; 8]) -> Sweep
    ensures { result ≡ sweep_from n.now }
{
    Sweep {
        at: n[0],
        bytes: n[1],
        points: words::low32(n, 2),
        first: words::low32(n, 3),
        second: words::low32(n, 4),
        third: words::low32(n, 5),
        fourth: words::low32(n, 6),
        fifth: words::low32(n, 7),
    }
}
