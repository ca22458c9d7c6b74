// The class of one point set in a lent file, in place: one byte of the file changes. From document 02, No. 13: "Reclassify one point".
#![tactic(auto)]

ghost use Rattle.std.specs.Prelude.{◌≡◌, true, false, ◌≤◌, length};
ghost use Rattle.extents.specs.Extents.{points_end};
ghost use Rattle.reclassify.specs.Reclassify.{change_at, asked_in, asked_of, reclassified_of};
ghost use Rattle.refusal.specs.Refused.{at_record};

use outline::Outline;
use refusal::{Refusal, Refused};

// The one byte that another class changes: where it stands in the file, and what it becomes; and the class that the point had.
#[derive(Clone, Copy)]
pub struct Change {
    pub at: u64,
    pub byte: u8,
    pub class: u8,
}

// Which byte of the file gives this class to the point of this number, the first being 1. Refused as the file check does; then 27 with
// the point count where there is no such point, and 17 with the class where it is above 31 and the format is 0 to 5.
pub fn ask(file: &[u8], allowance: u64, point: u64, class: u8) -> Result<Change, Refused>
    ensures { result ≡ asked_of allowance point class file.now }
{
    let header = file::open(file, allowance)?;
    ask_point(file, Outline::of(header), point, class)
}

// Gives this class to the point of this number, and leaves all else, the three flags beside an old class too. Refused as `ask` says, and
// it leaves the file then.
pub fn reclassify(file: &mut [u8], allowance: u64, point: u64, class: u8) -> Result<u8, Refused>
    ensures { (result, file.new) ≡ reclassified_of allowance point class file.old }
{
    let change = ask(file, allowance, point, class)?;
    store::set_u8(file, change.at as usize, change.byte);
    Ok(change.class)
}

// The change in an accepted file with this outline. The stride is the header's record length.
fn ask_point(file: &[u8], o: Outline, point: u64, class: u8) -> Result<Change, Refused>
    requires { points_end o ≤ length file.now }
    ensures { result ≡ asked_in o point class file.now }
{
    let count = o.number_of_point_records;
    if point == 0 {
        return refused(Refusal::Index(count));
    }
    if count < point {
        return refused(Refusal::Index(count));
    }
    let each = o.point_data_record_length as u64;
    let record = (o.offset_to_point_data as u64) + (point - 1) * each;
    if o.point_data_record_format >= 6 {
        return new_class(file, record + 16, class);
    }
    if class > 31 {
        return refused(Refusal::Class(class));
    }
    old_class(file, record + 15, class)
}

// The whole byte is the class.
fn new_class(file: &[u8], at: u64, class: u8) -> Result<Change, Refused>
    ensures { result ≡ Ok (change_at true at class file.now) }
{
    let byte = le::u8_at(file, at as usize);
    Ok(Change {
        at,
        byte: class,
        class: byte,
    })
}

// The class is the byte's low five bits, and synthetic, key point and withheld, above them, stay.
fn old_class(file: &[u8], at: u64, class: u8) -> Result<Change, Refused>
    requires { class ≤ 31 }
    ensures { result ≡ Ok (change_at false at class file.now) }
{
    let byte = le::u8_at(file, at as usize);
    Ok(Change {
        at,
        byte: byte / 32 * 32 + class,
        class: byte % 32,
    })
}

// A refusal with no record.
fn refused(refusal: Refusal) -> Result<Change, Refused>
    ensures { result ≡ Err (at_record refusal 0) }
{
    Err(Refused { refusal, record: 0 })
}
