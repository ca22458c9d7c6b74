// What is wrong with an accepted file that another program wrote: document 02, No. 12. A finding is its rule, its part, its point and its
// first byte, and they are told in file order.
#![tactic(auto)]

ghost use Rattle.std.specs.Prelude.{◌≡◌, ◌+◌, ◌*◌, ◌≤◌, length};
ghost use Rattle.cursor.specs.Cursor.{left_of};
ghost use Rattle.finding.specs.Told.{told};
ghost use Rattle.finding.specs.Rules.{through};
ghost use Rattle.findings.specs.Found.{texts_at, point_at, odd_points, found_in, found_from};
ghost use Rattle.findings.specs.Answer.{findings_of, Surveyed, Begun};

use cursor::{Cursor, Kind, Part};
use finding::Finding;
use refusal::{Refusal, Refused};
use returns::Survey;

// Every finding of the file, in file order, as four numbers each to the front of out, what lies past them staying; the answer is how many
// there are. Refused with the file check's refusal; 22 with the number of findings where out has less than four entries for each. A
// refusal leaves out as it was. The points are looked at once, and once more where some of them are findings.
pub fn findings(file: &[u8], allowance: u64, out: &mut [u64]) -> Result<u64, Refused>
    ensures { (result, out.new) ≡ findings_of allowance file.now out.old }
{
    let c = cursor::start(file, allowance)?;
    let survey = returns::survey_of(file, allowance);
    let n = tell_parts(file, survey, c, &mut out[..0]);
    if ((out.len() / 4) as u64) < n {
        return Err(Refusal::NoRoom(n).into());
    }
    tell_parts(file, survey, c, out);
    Ok(n)
}

// The findings of all parts from the cursor on, which is at the first: how many there are, and those that out has room for.
fn tell_parts(file: &[u8], survey: Survey, c: Cursor, out: &mut [u64]) -> u64
    requires { Begun file.now survey c }
    ensures { (result, out.new) ≡ told (found_from file.now survey 1 (left_of file.now c)) (0, out.old) }
{
    let mut n = 0;
    let mut number = 1;
    let mut c = c;
    while let Some(step) = cursor::next(file, c) {
        n = tell_part(file, survey, number, step.part, out, n);
        number += 1;
        c = step.next;
    }
    n
}

// Those of one part, which is the entry of this number in the part table.
fn tell_part(file: &[u8], survey: Survey, number: u64, part: Part, out: &mut [u64], n: u64) -> u64
    requires { Surveyed file.now survey × (part.start ≤ length file.now) }
    ensures { (result, out.new) ≡ told (found_in file.now survey number part) (n, out.old) }
{
    let start = part.start;
    match part.kind {
        Kind::Header => {
            let n = tell_texts(file, number, start, 26, 32, 58, out, n);
            let numbers = &survey.returns.numbers;
            finding::tell_counters(file, survey.extended, numbers, number, out, n)
        }
        Kind::Vlr => tell_texts(file, number, start, 2, 16, 22, out, n),
        Kind::Gap => n,
        Kind::Points => tell_points(file, survey, number, out, n),
        Kind::Evlr | Kind::Waveform => tell_texts(file, number, start, 2, 16, 28, out, n),
    }
}

// Rule 5 of a part that starts here: its two text fields, the second of 32 bytes.
fn tell_texts(
    file: &[u8],
    number: u64,
    start: u64,
    first: u64,
    width: usize,
    second: u64,
    out: &mut [u64],
    n: u64,
) -> u64
    requires { (start ≤ length file.now) × (first ≤ 60) × (second ≤ 60) }
    ensures { (result, out.new) ≡ told (texts_at file.now number start first width second) (n, out.old) }
{
    let n = finding::tell_text(file, number, start + first, width, out, n);
    finding::tell_text(file, number, start + second, 32, out, n)
}

// Rule 4, the points. Where nothing can be written, or none is a finding, what the survey counted is enough.
fn tell_points(file: &[u8], survey: Survey, number: u64, out: &mut [u64], n: u64) -> u64
    requires { Surveyed file.now survey }
    ensures { (result, out.new) ≡ told (odd_points file.now survey number) (n, out.old) }
{
    let odd = survey.returns.odd;
    if out.is_empty() {
        return finding::plus(n, odd);
    }
    if odd == 0 {
        return n;
    }
    tell_odd(
        file,
        survey.extended,
        survey.each,
        survey.at,
        survey.count,
        number,
        out,
        n,
    )
}

// Each of these points whose return number cannot be.
fn tell_odd(
    file: &[u8],
    extended: bool,
    each: usize,
    first: usize,
    count: u64,
    number: u64,
    out: &mut [u64],
    n: u64,
) -> u64
    requires { first + count * each ≤ length file.now }
    ensures { (result, out.new) ≡ told (through (point_at file.now extended first each number) 0 count) (n, out.old) }
{
    let mut n = n;
    let mut at = first;
    for i in 0..count {
        let odd = returns::is_odd_in(&file[at..at + each], extended);
        n = finding::tell_if(
            odd,
            Finding {
                rule: 4,
                part: number,
                point: i + 1,
                at: at as u64,
            },
            out,
            n,
        );
        at += each;
    }
    n
}
