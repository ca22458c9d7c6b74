// Where the parts of a file end: document 01, "When a file is accepted", rules 2 to 8 of a header's outline.
#![tactic(auto)]

ghost use Rattle.std.specs.Prelude.{◌≡◌, ◌∷◌};
ghost use Rattle.rules.specs.Rules.{first};
ghost use Rattle.extents.specs.Extents.{points_end, point_rule, start_refusal, later_rules, part_rules, outline_rules, records_of};
ghost use Rattle.extents.specs.Steps.{Bounded};

use outline::Outline;
use refusal::Refusal;
use rules::NotAccepted;

// Rules 2 to 8, for a header whose standard size is `block`.
pub fn check(
    file: &[u8],
    allowance: u64,
    block: usize,
    minor: u8,
    o: Outline,
) -> Result<u64, NotAccepted>
    ensures { result ≡ first (outline_rules block minor allowance o file.now) (Ok (records_of o)) }
{
    rules::check_header(block, minor, o, file.len())?;
    check_parts(file, allowance, o)
}

// Rules 6 to 8.
fn check_parts(file: &[u8], allowance: u64, o: Outline) -> Result<u64, NotAccepted>
    requires { Bounded o file.now }
    ensures { result ≡ first (part_rules allowance o file.now) (Ok (records_of o)) }
{
    let from = o.header_size as usize;
    let to = o.offset_to_point_data as usize;
    rules::check_records(
        &file[from..to],
        false,
        allowance,
        0,
        o.number_of_variable_length_records,
    )?;
    check_points(file, allowance, o)
}

// Rules 7 and 8. The points' end is tested by a division, so nothing wraps.
fn check_points(file: &[u8], allowance: u64, o: Outline) -> Result<u64, NotAccepted>
    requires { Bounded o file.now }
    ensures { result ≡ first (point_rule o file.now ∷ later_rules allowance o file.now) (Ok (records_of o)) }
{
    let offset = o.offset_to_point_data as usize;
    let record_length = o.point_data_record_length as usize;
    let count = o.number_of_point_records as usize;
    if (file.len() - offset) / record_length < count {
        return rules::refused(
            Refusal::PointExtent(o.number_of_point_records),
            o.number_of_variable_length_records as u64,
        );
    }
    check_later(file, allowance, o, offset + count * record_length)
}

// Rule 8, or the same of the waveform packets, for points that end at `end`.
fn check_later(file: &[u8], allowance: u64, o: Outline, end: usize) -> Result<u64, NotAccepted>
    requires { end ≡ points_end o }
    ensures { result ≡ first (later_rules allowance o file.now) (Ok (records_of o)) }
{
    let vlrs = o.number_of_variable_length_records;
    let start = o.start_of_later_records;
    if o.number_of_later_records == 0 {
        return Ok(vlrs as u64);
    }
    if start < end as u64 {
        return rules::refused(start_refusal(o), vlrs as u64);
    }
    if (file.len() as u64) < start {
        return rules::refused(start_refusal(o), vlrs as u64);
    }
    let rest = &file[start as usize..];
    rules::check_records(rest, true, allowance, vlrs, o.number_of_later_records)
}

// 14, or 35 for the waveform packets: the later records start before the end of the points or beyond the file.
fn start_refusal(o: Outline) -> Refusal
    ensures { result ≡ start_refusal o }
{
    if o.waveform {
        return Refusal::WaveformStart;
    }
    Refusal::EvlrStart(o.start_of_later_records)
}
