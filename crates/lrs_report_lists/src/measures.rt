//! Measures at chainages.

ghost use Rattle.std.specs.Prelude.{◌≡◌, ◌≤◌, ◌*◌, ◌↔◌, length, unsigned_abs, IfSome, IsSome, OnOk};
ghost use Rattle.std.specs.Io.KnownBytes.{Appends};
ghost use Rattle.lrs_measure.specs.Fraction.{IsLowest};
ghost use Rattle.lrs_measure.specs.Limits.{greatest_measure, longest_route};
ghost use Rattle.lrs_element.specs.Line.{HasMeasure};
ghost use Rattle.lrs_report_lists.specs.Measures.{decimal_measure, decimal_measure_text, measure_field, measure_on, measure_text, thousandths, whole};

use lrs_measure::{Frac, Metres};
use lrs_position::Route;
use std::io;
use std::io::Write;

/// The exact measure at a chainage of a route, in lowest terms; none behind the route.
pub fn measure_on(route: &Route, chainage: u64) -> Option<Frac>
    ensures measure { result ≡ measure_on route.now.marks chainage }
    ensures found { IsSome result ↔ (chainage ≤ length route.now.course) }
    ensures line { IfSome result (λ m. HasMeasure route.now.marks (whole chainage) m) }
    ensures lowest { IfSome result (λ m. IsLowest m) }
{
    if chainage > route.length() {
        return None;
    }
    route.marks.measure_at(Frac::of_whole(chainage as i64))
}

/// A measure in thousandths, a half going up.
fn thousandths(measure: Frac) -> u64
    requires small { unsigned_abs measure.num ≤ greatest_measure * measure.den }
    requires fine { measure.den ≤ longest_route }
    ensures { result ≡ thousandths (unsigned_abs measure.num) measure.den }
{
    let num = measure.num().unsigned_abs();
    let den = measure.den();
    ((2000 * num + den) / (2 * den)) as u64
}

/// The measure at a chainage of a route in thousandths, a half going up; none behind the route. As `Metres` it is printed as
/// a decimal with three places.
pub fn thousandths_on(route: &Route, chainage: u64) -> Option<u64>
    ensures measure { result ≡ decimal_measure route.now.marks chainage }
    ensures found { IsSome result ↔ (chainage ≤ length route.now.course) }
{
    match measure_on(route, chainage) {
        Some(measure) => Some(thousandths(measure)),
        None => None,
    }
}

/// Writes this measure exactly: `n`, or `n/d` where it is not whole.
fn write_exact<W: Write>(writer: &mut W, route: &Route, chainage: u64) -> io::Result<()>
    ensures { OnOk result (Appends (W.contents writer.old) (W.contents writer.new)
        (measure_text route.now.marks chainage)) }
{
    match measure_on(route, chainage) {
        Some(measure) => write!(writer, "{measure}"),
        None => Ok(()),
    }
}

/// Writes this measure as a decimal with three places.
fn write_decimal<W: Write>(writer: &mut W, route: &Route, chainage: u64) -> io::Result<()>
    ensures { OnOk result (Appends (W.contents writer.old) (W.contents writer.new)
        (decimal_measure_text route.now.marks chainage)) }
{
    match thousandths_on(route, chainage) {
        Some(count) => {
            let measure = Metres::new(count);
            write!(writer, "{measure}")
        }
        None => Ok(()),
    }
}

/// Writes the measure at a chainage of a route, exactly or as a decimal with three places; nothing behind the route.
pub(crate) fn write_measure<W: Write>(
    writer: &mut W,
    route: &Route,
    chainage: u64,
    exact: bool,
) -> io::Result<()>
    ensures { OnOk result (Appends (W.contents writer.old) (W.contents writer.new)
        (measure_field exact route.now.marks chainage)) }
{
    if exact {
        write_exact(writer, route, chainage)
    } else {
        write_decimal(writer, route, chainage)
    }
}
