// Document 01's pairs of formats, and the plan of a run: both formats with the lengths of their records.
#![tactic(auto)]

ghost use Rattle.std.specs.Prelude.{◌≡◌, ◌<◌};
ghost use Rattle.pairs.specs.Pairs.{format_with, pair_of, old_pair, new_pair, planned_by};

use format::Format;
use refusal::Refusal;

// The two formats of a run, with the lengths of their records.
#[derive(Clone, Copy)]
pub struct Plan {
    pub source: Format,
    pub target: Format,
    pub source_length: usize,
    pub target_length: usize,
}

// The plan of a run that goes down to the old format of its pair. Refused: 26 where the format has no pair; 8 where a record of
// the source, then of the target, is over 65,535 bytes.
pub fn to_old(format: u8, extra: u16) -> Result<Plan, Refusal>
    ensures { result ≡ planned_by format (old_pair format extra) }
{
    plan_for(format, old_pair(format, extra))
}

// The plan of a run that goes up to the new format of its pair, in the same way.
pub fn to_new(format: u8, extra: u16) -> Result<Plan, Refusal>
    ensures { result ≡ planned_by format (new_pair format extra) }
{
    plan_for(format, new_pair(format, extra))
}

// The old format that a new one goes down to.
#[tactic(auto, unfolding(crate::specs::Pairs::old_pair))]
fn old_pair(format: u8, extra: u16) -> Option<(Format, Format)>
    ensures { result ≡ old_pair format extra }
{
    match format {
        6 => formats(6, 1, extra),
        7 => formats(7, 3, extra),
        8 => formats(8, 3, extra),
        9 => formats(9, 4, extra),
        10 => formats(10, 5, extra),
        _ => None,
    }
}

// The new format that an old one goes up to.
#[tactic(auto, unfolding(crate::specs::Pairs::new_pair))]
fn new_pair(format: u8, extra: u16) -> Option<(Format, Format)>
    ensures { result ≡ new_pair format extra }
{
    match format {
        1 => formats(1, 6, extra),
        3 => formats(3, 7, extra),
        4 => formats(4, 9, extra),
        5 => formats(5, 10, extra),
        _ => None,
    }
}

// The formats of two codes, with the same extra bytes.
fn formats(source: u8, target: u8, extra: u16) -> Option<(Format, Format)>
    requires { (source < 11) × (target < 11) }
    ensures { result ≡ pair_of source target extra }
{
    Some((with_extra(source, extra), with_extra(target, extra)))
}

// The format of a code of the standard, with extra bytes. Such a code is not refused, so the else is not reached.
fn with_extra(code: u8, extra: u16) -> Format
    requires { code < 11 }
    ensures { result ≡ format_with code extra }
{
    let Ok(mut format) = Format::new(code) else {
        return Format::default();
    };
    format.extra_bytes = extra;
    format
}

// Both formats with their records' lengths: 26 where there is no pair; 8 where a record of the source, then of the target, is too
// long.
fn plan_for(format: u8, pair: Option<(Format, Format)>) -> Result<Plan, Refusal>
    ensures { result ≡ planned_by format pair }
{
    let (source, target) = pair.ok_or(Refusal::NoPair(format))?;
    let source_length = source.len()? as usize;
    let target_length = target.len()? as usize;
    Ok(Plan {
        source,
        target,
        source_length,
        target_length,
    })
}
