// One record of the strict conversion and of the upgrade for C and Rust: a point is the 24 numbers of the crate capi_point, and
// rows are those of the crate words.
#![tactic(auto)]

ghost use Rattle.std.specs.Prelude.{◌≡◌};
ghost use Rattle.point.specs.Read.{no_point};
ghost use Rattle.strict.specs.Fit.{fit_of};
ghost use Rattle.strict.specs.Upgrade.{upgraded_of};
ghost use Rattle.capi_point.specs.Numbers.{numbers_of, point_from};
ghost use Rattle.capi_strict.specs.Rows.{fit_row};

use point::Point;

// Whether a point goes into the old format with every field the same, or the first field that does not.
#[unsafe(no_mangle)]
pub extern "C" fn las_strict_check(numbers: &[u64; 24], row: &mut [u64; 3])
    ensures { row.new ≡ fit_row (fit_of (point_from numbers.now)) }
{
    match strict::check(capi_point::point_from(numbers)) {
        Ok(()) => words::tell(row, 0, 0, 0),
        Err(refusal) => words::refuse(row, refusal, 0),
    }
}

// Makes an old point new, in its place; one with three-byte flags stays as it is.
#[unsafe(no_mangle)]
pub extern "C" fn las_strict_upgraded(numbers: &mut [u64; 24])
    ensures { numbers.new ≡ numbers_of (upgraded_of (point_from numbers.old)) }
{
    let point = strict::upgraded(capi_point::point_from(numbers));
    *numbers = capi_point::numbers_of(point);
}

// The numbers of the Rust's default point. It stands apart from the point reader, so that the library that has the reader makes numbers of
// a point in one place, where the compiler puts that and no call.
#[unsafe(no_mangle)]
pub extern "C" fn las_point_default(numbers: &mut [u64; 24])
    ensures { numbers.new ≡ numbers_of no_point }
{
    *numbers = capi_point::numbers_of(Point::default());
}
