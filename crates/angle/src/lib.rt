// The scan angle of a point: a rank in whole degrees (formats 0 to 5) or a scaled angle in steps of 0.006 degrees
// (formats 6 to 10). From src/raw/point.rs of las 0.11.2, its float route replaced by document 01's exact rules.
#![tactic(auto)]

ghost use Rattle.std.specs.Prelude.{◌≡◌, pos, ◌*ℤ◌};
ghost use Rattle.angle.specs.Angle.{nearest_rank, held, scaled_of, to_rank, to_scaled, to_degrees, from_degrees, same_angle, eq_z};
ghost use Rattle.angle.specs.declared.ScanAngle.TheVariants.{Rank};
ghost use Rattle.angle.specs.Same.{same-equivalence};
ghost use Rattle.std.specs.Cmp.{partial_equiv_from_equiv};
ghost use Rattle.angle.specs.Table.{scaled_table, entry_of, to_scaled_in};
ghost use Rattle.std.specs.Float.Ieee.{to_signed};

use table::SCALED;

mod table;

#[derive(Clone, Copy)]
pub enum ScanAngle {
    Rank(i8),
    Scaled(i16),
}

// The nearest whole degree to a scaled angle, halves away from zero, before it is held in an i8.
pub fn nearest_rank(n: i16) -> i16
    ensures { result ≡ nearest_rank n }
{
    let half = if n < 0 { -500 } else { 500 };
    ((6 * (n as i32) + half) / 1000) as i16
}

// A rank held at -128 and 127.
fn held8(k: i16) -> i8
    ensures { result ≡ held k }
{
    if k < -128 {
        return -128;
    }
    if k > 127 {
        return 127;
    }
    k as i8
}

// Whether 500r = 3n, which is when a rank r and a scaled n are the same angle.
fn same(r: i8, n: i16) -> bool
    ensures { result ≡ eq_z (pos 500 *ℤ r) (pos 3 *ℤ n) }
{
    500 * (r as i32) == 3 * (n as i32)
}

// The table of scaled angles, of rank -128 first: for a loop over points, which makes it once and lends it to `to_scaled_in`. Where a
// table is named in code it is made there, all of it.
pub fn scaled_table() -> [i16; 256]
    ensures { result ≡ scaled_table }
{
    SCALED
}

// The entry of a rank in such a table.
fn entry(table: &[i16; 256], r: i8) -> i16
    ensures { result ≡ entry_of table.now r }
{
    let place = ((r.cast_unsigned() as usize) + 128) % 256;
    table[place]
}

// The scaled angle of a rank, from the table.
fn scaled(r: i8) -> i16
    ensures { result ≡ scaled_of r }
{
    let table = scaled_table();
    entry(&table, r)
}

// The weight of the sign in an f32's bits.
const SIGN: u32 = 0x8000_0000;

// The weight of the exponent's field, and of the leading digit, which the bits leave out.
const LEAD: u32 = 0x80_0000;

// The whole part of an f32, held at the ends of i16; a NaN gives 0. It is read off the bits, since `as` would take whole
// numbers only. At an exponent field of e the last of the 24 digits stands for 2^(e - 150).
fn whole16(x: f32) -> i16
    ensures { result ≡ to_signed 15 x }
{
    // only a NaN differs from itself
    if x != x {
        return 0;
    }
    let bits = f32::to_bits(x);
    let e = bits % SIGN / LEAD;
    if e < 127 {
        return 0;
    }
    if e > 141 {
        return if bits < SIGN { 32767 } else { -32768 };
    }
    let t = ((LEAD + bits % LEAD) >> (150 - e)) as i16;
    if bits < SIGN { t } else { -t }
}

impl ScanAngle {
    // The rank: its own, or the nearest whole degree held at -128 and 127.
    pub fn to_rank(self) -> i8
        ensures { result ≡ to_rank self }
    {
        match self {
            ScanAngle::Rank(r) => r,
            ScanAngle::Scaled(n) => held8(nearest_rank(n)),
        }
    }

    // The scaled angle: its own, or 500/3 of the rank, the fraction dropped, as the table has it.
    pub fn to_scaled(self) -> i16
        ensures { result ≡ to_scaled self }
    {
        match self {
            ScanAngle::Rank(r) => scaled(r),
            ScanAngle::Scaled(n) => n,
        }
    }

    // The same by a table that is lent; that of `scaled_table` gives what `to_scaled` does.
    pub fn to_scaled_in(self, table: &[i16; 256]) -> i16
        ensures { result ≡ to_scaled_in table.now self }
    {
        match self {
            ScanAngle::Rank(r) => entry(table, r),
            ScanAngle::Scaled(n) => n,
        }
    }

    // The angle in degrees: the rank, or the scaled angle times the f32 nearest 0.006, rounded once.
    pub fn to_degrees(self) -> f32
        ensures { result ≡ to_degrees self }
    {
        match self {
            ScanAngle::Rank(n) => n as f32,
            ScanAngle::Scaled(n) => (n as f32) * 0.006,
        }
    }

    // The scaled angle of an f32 in degrees: the rounded quotient by the same constant, its fraction dropped, held at
    // the ends of i16; a NaN gives 0.
    pub fn from_degrees(n: f32) -> ScanAngle
        ensures { result ≡ from_degrees n }
    {
        ScanAngle::Scaled(whole16(n / 0.006))
    }
}

// A rank r is a scaled n exactly when 500r = 3n.
impl PartialEq for ScanAngle {
    ghost eq = { same_angle };

    ghost laws = { partial_equiv_from_equiv same-equivalence };

    fn eq(&self, other: &ScanAngle) -> bool {
        match (*self, *other) {
            (ScanAngle::Rank(r), ScanAngle::Rank(q)) => r == q,
            (ScanAngle::Rank(r), ScanAngle::Scaled(n)) => same(r, n),
            (ScanAngle::Scaled(n), ScanAngle::Rank(r)) => same(r, n),
            (ScanAngle::Scaled(n), ScanAngle::Scaled(m)) => n == m,
        }
    }
}

impl Eq for ScanAngle {
    ghost laws = { same-equivalence };
}

// Rank 0.
impl Default for ScanAngle {
    ghost is_default = { λ a. a ≡ Rank (pos 0) };

    fn default() -> ScanAngle {
        ScanAngle::Rank(0)
    }
}
