// Records added to a lent file of version 1.2 so that doing it again does no harm. From document 02, No. 1: "An append I can repeat".
#![tactic(auto)]

ghost use Rattle.std.specs.Prelude.{◌≡◌};
ghost use Rattle.sectors.specs.Sectors.{stores_of, after_stores};
ghost use Rattle.append.specs.Append.{appended_of};

use offer::{Offer, Sweep};
use refusal::Refused;

// The records are added, or they stand in the file already, or why neither, with the record number of the file check's refusal.
#[derive(Clone, Copy)]
pub enum Appended {
    Added,
    AlreadyIn,
}

// Adds n records after the points of the file, with the new bounds as their bits (max x, min x, max y, min y, max z, min z), where
// `believed` points stood before them: all stores of `sectors::store`, one after the other. Where they are already in, or refused as
// `offer::judge` says, the file stays as it was.
pub fn append(
    file: &mut [u8],
    allowance: u64,
    records: &[u8],
    n: u64,
    bounds: [u64; 6],
    believed: u64,
) -> Result<Appended, Refused>
    ensures { (result, file.new) ≡ appended_of allowance records.now n bounds believed file.old }
{
    let offer = offer::judge(file, allowance, records, n, believed)?;
    match offer {
        Offer::Add(sweep) => {
            store_all(file, sweep, records, bounds);
            Ok(Appended::Added)
        }
        Offer::AlreadyIn => Ok(Appended::AlreadyIn),
    }
}

// All stores of a sweep.
fn store_all(file: &mut [u8], sweep: Sweep, records: &[u8], bounds: [u64; 6])
    ensures { file.new ≡ after_stores sweep records.now bounds (stores_of sweep) file.old }
{
    for k in 0..sectors::stores(sweep) {
        let _ = sectors::store(file, sweep, records, bounds, k);
    }
}
