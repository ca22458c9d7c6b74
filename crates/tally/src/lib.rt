// Point records counted by return number, as the header of versions 1.0 to 1.3 counts them. Added by document 02, No. 1.
#![tactic(auto)]

ghost use Rattle.std.specs.Prelude.{◌≡◌, ◌*◌, ◌≤◌, cond, length};
ghost use Rattle.format.specs.Fields.{len_of};
ghost use Rattle.tally.specs.Tally.{return_in, by_return, tally_of};

use format::Format;
use point::marks::Marks;
use refusal::Refusal;

// How many records have return number 1, 2, 3, 4 and 5; those of 0, 6 and 7 are counted nowhere.
#[derive(Clone, Copy)]
pub struct ByReturn {
    pub first: u64,
    pub second: u64,
    pub third: u64,
    pub fourth: u64,
    pub fifth: u64,
}

// The first n records of a slice, counted by return. Refused: 8 where a record of the format would be over 65,535 bytes, then 1 where
// the slice has fewer than n of them.
pub fn count(records: &[u8], format: Format, n: u64) -> Result<ByReturn, Refusal>
    ensures { result ≡ tally_of format n records.now }
{
    let each = format.len()?;
    if ((records.len() / (each as usize)) as u64) < n {
        return Err(Refusal::Short(refusal::wanted(n, each as u64)));
    }
    Ok(count_all(records, format, each as usize, n as usize))
}

// n records of m bytes, all of them there, counted by return.
fn count_all(records: &[u8], format: Format, m: usize, n: usize) -> ByReturn
    requires { (len_of format ≡ Ok m) × (n * m ≤ length records.now) }
    ensures { result ≡ by_return format n records.now }
{
    let mut first = 0;
    let mut second = 0;
    let mut third = 0;
    let mut fourth = 0;
    let mut fifth = 0;
    for record in records[..n * m].chunks_exact(m) {
        let r = return_in(record, format);
        first += one_if(r == 1);
        second += one_if(r == 2);
        third += one_if(r == 3);
        fourth += one_if(r == 4);
        fifth += one_if(r == 5);
    }
    ByReturn {
        first,
        second,
        third,
        fourth,
        fifth,
    }
}

// The return number of the point in a record; 0 where there is no point.
fn return_in(record: &[u8], format: Format) -> u8
    ensures { result ≡ return_in format «record».now }
{
    let Ok(marks) = Marks::read_from(record, format) else {
        return 0;
    };
    let flags = marks.flags;
    flags.return_number()
}

// One for a yes.
fn one_if(yes: bool) -> u64
    ensures { result ≡ cond yes 1 0 }
{
    if yes { 1 } else { 0 }
}
