// Whether a whole run of point records goes to the other format of its pair, and how many bytes it needs there: document 02's question
// before converting, which has no destination. By the pair of formats, by the length of the source, and on the way down by each record, in
// document 01's order.
#![tactic(auto)]

ghost use Rattle.std.specs.Prelude.{◌≡◌, ◌*◌, ◌≤◌, length};
ghost use Rattle.format.specs.Fields.{len_of};
ghost use Rattle.point.specs.Read.{read_of};
ghost use Rattle.pairs.specs.Sound.{Sound, PlannedSound};
ghost use Rattle.judge.specs.Judge.{fit_read, judge_run, judged_of, verdict_by, old_verdict, new_verdict};

use format::Format;
use pairs::Plan;
use point::marks::Marks;
use refusal::{Refusal, Refused};

// The plan that a run goes by, and the bytes that it needs.
#[derive(Clone, Copy)]
pub struct Run {
    pub plan: Plan,
    pub bytes: usize,
}

// Whether `count` records of a new format, each with `extra` extra bytes, go down to the old format of its pair. Refused: 26 where the
// format has no pair; 8 where a record of the source, then of the target, is over 65,535 bytes; 1 where the source is short; then 15
// to 21 with the number of the first record that does not fit.
pub fn ask_old(src: &[u8], format: u8, extra: u16, count: u64) -> Result<Run, Refused>
    ensures { result ≡ old_verdict format extra count src.now }
{
    verdict_on(src, pairs::to_old(format, extra), count as usize, false)
}

// The same for an upgrade to the new format of the pair; no record is refused.
pub fn ask_new(src: &[u8], format: u8, extra: u16, count: u64) -> Result<Run, Refused>
    ensures { result ≡ new_verdict format extra count src.now }
{
    verdict_on(src, pairs::to_new(format, extra), count as usize, true)
}

// The verdict on a run with this plan; `up` says whether it is upgraded.
fn verdict_on(
    src: &[u8],
    planned: Result<Plan, Refusal>,
    count: usize,
    up: bool,
) -> Result<Run, Refused>
    requires { PlannedSound up planned }
    ensures { result ≡ verdict_by up count src.now planned }
{
    let plan = planned?;
    judge(src, plan, count, up)?;
    Ok(Run {
        plan,
        bytes: count * plan.target_length,
    })
}

// What the run is refused with.
fn judge(src: &[u8], plan: Plan, count: usize, up: bool) -> Result<(), Refused>
    requires { Sound up plan }
    ensures { result ≡ judged_of up plan count src.now }
{
    if src.len() / plan.source_length < count {
        let wanted = refusal::wanted(count as u64, plan.source_length as u64);
        return Err(Refusal::Short(wanted).into());
    }
    if up {
        return Ok(());
    }
    judge_records(src, plan.source, plan.source_length, count)
}

// The first record that does not fit, with its number.
fn judge_records(src: &[u8], format: Format, m: usize, count: usize) -> Result<(), Refused>
    requires { (len_of format ≡ Ok m) × (count * m ≤ length src.now) }
    ensures { result ≡ judge_run format m 1 count src.now }
{
    let mut at = 0;
    for i in 0..count {
        if let Err(refusal) = judge_record(&src[at..at + m], format) {
            return Err(Refused {
                refusal,
                record: (i + 1) as u64,
            });
        }
        at += m;
    }
    Ok(())
}

// Whether a record fits, by what its reader answers of flags, near infrared and angle.
fn judge_record(src: &[u8], format: Format) -> Result<(), Refusal>
    ensures { result ≡ fit_read (read_of format src.now) }
{
    let marks = Marks::read_from(src, format)?;
    strict::check_fields(marks.flags, marks.nir, marks.scan_angle)
}
