// A VLR or an EVLR, written: `Vlr::write_to` of src/raw/vlr.rs of las 0.11.2. It stands apart from crate `vlr`, as
// `point_write` and `header_write` do from theirs, to keep checks short.
#![tactic(auto)]

ghost use Rattle.std.specs.Prelude.{◌≡◌};
ghost use Rattle.fields.specs.Table.{Stored};
ghost use Rattle.vlr.specs.Layout.{fields, width, place};
ghost use Rattle.vlr.specs.Vlr.{is_extended, is_evlr, field_bytes, written_of};

use refusal::Refusal;
use vlr::{RecordLength, Vlr};

// Writes the head and then `data` to the front of `dst`, answers their bytes and leaves what lies past them. Refuses
// with 24 where `data` has not the stated length, then with 22; a refusal changes nothing.
pub fn write_to(vlr: Vlr, data: &[u8], dst: &mut [u8]) -> Result<usize, Refusal>
    ensures { (result, dst.new) ≡ written_of vlr «data».now dst.old }
{
    let stated = vlr.record_length_after_header;
    let wanted = stated.to_u64();
    if data.len() as u64 != wanted {
        return Err(Refusal::VlrDataLength(wanted));
    }
    let head = vlr::head_size(is_extended(stated));
    let size = head + data.len();
    if dst.len() < size {
        return Err(Refusal::NoRoom(size as u64));
    }
    write_head(vlr, dst);
    let _ = lent::put(&mut dst[head..], data);
    Ok(size)
}

// Whether it is the length of an EVLR.
fn is_extended(n: RecordLength) -> bool
    ensures { result ≡ is_extended n }
{
    match n {
        RecordLength::Vlr(_) => false,
        RecordLength::Evlr(_) => true,
    }
}

// Stores each field of the head at its place.
fn write_head(vlr: Vlr, dst: &mut [u8])
    ensures { Stored (width (is_evlr vlr)) (place (is_evlr vlr)) (field_bytes vlr) dst.old fields dst.new }
{
    let stated = vlr.record_length_after_header;
    store::set_u16(dst, 0, vlr.reserved);
    store::set_bytes(dst, 2, &vlr.user_id);
    store::set_u16(dst, 18, vlr.record_id);
    match stated {
        RecordLength::Vlr(n) => {
            store::set_u16(dst, 20, n);
            store::set_bytes(dst, 22, &vlr.description);
        }
        RecordLength::Evlr(n) => {
            store::set_u64(dst, 20, n);
            store::set_bytes(dst, 28, &vlr.description);
        }
    }
}
