// One finding, told into a lent buffer of numbers, and the rules that speak of a header's counters and of texts: document 02, No. 12.
#![tactic(auto)]

ghost use Rattle.std.specs.Prelude.{◌≡◌, ◌≤◌};
ghost use Rattle.finding.specs.Told.{plus, stored, told};
ghost use Rattle.finding.specs.Rules.{spot, unlike, when, text_at, legacy_first, legacy_at, legacies, large_at, larges, counters};

// The rule that is broken, 1 to 5 in document 02's order; the entry of the part table where, from 1; the point, from 1, or 0; and the
// first byte of the counter, the text or the point's record.
#[derive(Clone, Copy)]
pub struct Finding {
    pub rule: u64,
    pub part: u64,
    pub point: u64,
    pub at: u64,
}

// A finding where a rule is broken: counted after n others, and stored after them, as four numbers, where out has room for it.
pub fn tell_if(broken: bool, finding: Finding, out: &mut [u64], n: u64) -> u64
    ensures { (result, out.new) ≡ told (when broken finding) (n, out.old) }
{
    if !broken {
        return n;
    }
    store(finding, out, n);
    plus(n, 1)
}

// Four numbers for the finding after n others, where out has room for them.
fn store(finding: Finding, out: &mut [u64], n: u64)
    ensures { out.new ≡ stored finding n out.old }
{
    if (out.len() / 4) as u64 <= n {
        return;
    }
    let at = n as usize * 4;
    out[at] = finding.rule;
    out[at + 1] = finding.part;
    out[at + 2] = finding.point;
    out[at + 3] = finding.at;
}

// A count and so many more; it stops at the largest number.
pub fn plus(n: u64, more: u64) -> u64
    ensures { result ≡ plus n more }
{
    n.saturating_add(more)
}

// Rule 5, a text of this width at this byte of the file.
pub fn tell_text(file: &[u8], part: u64, at: u64, width: usize, out: &mut [u64], n: u64) -> u64
    ensures { (result, out.new) ≡ told (text_at file.now part at width) (n, out.old) }
{
    tell_if(
        text_rest::has_rest(file, at, width),
        spot(5, part, at),
        out,
        n,
    )
}

// Rules 1 to 3, the counters of the header, by whether the points' format is of 6 to 10, and how many records have each return number.
pub fn tell_counters(
    file: &[u8],
    extended: bool,
    numbers: &[u64; 16],
    part: u64,
    out: &mut [u64],
    n: u64,
) -> u64
    ensures { (result, out.new) ≡ told (counters file.now extended numbers.now part) (n, out.old) }
{
    let large = le::u8_at(file, 25) == 4;
    let n = tell_legacy_first(file, extended, large, part, out, n);
    let n = tell_legacies(file, extended, large, numbers, part, out, n);
    if !large {
        return n;
    }
    tell_larges(file, numbers, part, out, n)
}

// The legacy count of points: it is to be 0 in formats 6 to 10, and in version 1.4 it is to be 0 or the large one.
fn tell_legacy_first(
    file: &[u8],
    extended: bool,
    large: bool,
    part: u64,
    out: &mut [u64],
    n: u64,
) -> u64
    ensures { (result, out.new) ≡ told (legacy_first file.now extended large part) (n, out.old) }
{
    let stated = le::u32_at(file, 107) as u64;
    let nonzero = unlike(extended, stated, 0);
    let n = tell_if(nonzero, spot(1, part, 107), out, n);
    let some = unlike(large, stated, 0);
    let other = unlike(some, stated, le::u64_at(file, 247));
    tell_if(other, spot(2, part, 107), out, n)
}

// The five legacy counts by return.
fn tell_legacies(
    file: &[u8],
    extended: bool,
    large: bool,
    numbers: &[u64; 16],
    part: u64,
    out: &mut [u64],
    n: u64,
) -> u64
    ensures { (result, out.new) ≡ told (legacies file.now extended large numbers.now part) (n, out.old) }
{
    let mut n = n;
    // Stays: the return itself is the place, in the file and in `numbers`.
    for i in 1..6 {
        n = tell_legacy_at(file, extended, large, numbers, part, i, out, n);
    }
    n
}

// One of them, of return i: it is to be 0 in formats 6 to 10, and before version 1.4 the number of records of that return.
fn tell_legacy_at(
    file: &[u8],
    extended: bool,
    large: bool,
    numbers: &[u64; 16],
    part: u64,
    i: usize,
    out: &mut [u64],
    n: u64,
) -> u64
    requires { i ≤ 5 }
    ensures { (result, out.new) ≡ told (legacy_at file.now extended large numbers.now part i) (n, out.old) }
{
    let at = 107 + 4 * i;
    let stated = le::u32_at(file, at) as u64;
    let nonzero = unlike(extended, stated, 0);
    let n = tell_if(nonzero, spot(1, part, at as u64), out, n);
    let other = unlike(!large, stated, numbers[i]);
    tell_if(other, spot(3, part, at as u64), out, n)
}

// The 15 large counts by return, each to be the number of records of its return.
fn tell_larges(file: &[u8], numbers: &[u64; 16], part: u64, out: &mut [u64], n: u64) -> u64
    ensures { (result, out.new) ≡ told (larges file.now numbers.now part) (n, out.old) }
{
    let mut n = n;
    // Stays: the return itself is the place, in the file and in `numbers`.
    for i in 1..16 {
        let at = 247 + 8 * i;
        let other = unlike(true, le::u64_at(file, at), numbers[i]);
        n = tell_if(other, spot(3, part, at as u64), out, n);
    }
    n
}

// Whether what is stated is another number than what is there, where the two are compared.
fn unlike(compared: bool, stated: u64, there: u64) -> bool
    ensures { result ≡ unlike compared stated there }
{
    compared && stated != there
}

// A finding of no point.
fn spot(rule: u64, part: u64, at: u64) -> Finding
    ensures { result ≡ spot rule part at }
{
    Finding {
        rule,
        part,
        point: 0,
        at,
    }
}
