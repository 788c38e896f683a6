//! Places of a route as somebody names them, and as they are understood: chainages in metres, with the measures there.

ghost use Rattle.std.specs.Prelude.{◌≡◌, ◌*ℤ◌, pos, IfSome};
ghost use Rattle.lrs_measure.specs.Fraction.{IsQuotient};
ghost use Rattle.lrs_element.specs.Line.{HasMeasure};
ghost use Rattle.lrs_position.specs.Readings.{whole};
ghost use Rattle.lrs_position.specs.declared.expression.Expr.TheVariants.{Abs};
ghost use Rattle.lrs_cli_sheets.specs.Places as spec;

use lrs_machine::{AskedPlace, Command, Place, Question};
use lrs_measure::limits::GREATEST_MEASURE;
use lrs_measure::{Frac, Metres};
use lrs_position::{Expr, Route, RouteName, cell, locate, snap};
use std::fmt;

/// What is named of a route by places: one place, an end of a stretch, or both ends.
#[derive(Clone, Copy, PartialEq, Eq)]
pub(crate) enum Places {
    At(Place),
    From(Place),
    To(Place),
    Between(Place, Place),
}

// The ends of a stretch, where one is given.
fn ends(from: Option<Place>, to: Option<Place>) -> Option<Places>
    ensures { result ≡ spec.ends from to }
{
    match (from, to) {
        (Some(from), Some(to)) => Some(Places::Between(from, to)),
        (Some(from), None) => Some(Places::From(from)),
        (None, Some(to)) => Some(Places::To(to)),
        (None, None) => None,
    }
}

// Places of a route, where both are given.
fn on_route(route: Option<RouteName>, places: Option<Places>) -> Option<(RouteName, Places)>
    ensures { result ≡ spec.on_route route places }
{
    match (route, places) {
        (Some(route), Some(places)) => Some((route, places)),
        _ => None,
    }
}

/// The places that a question names, and their route.
pub(crate) fn places_in(question: &Question) -> Option<(RouteName, Places)>
    ensures { result ≡ spec.places_in question.now }
{
    match question {
        Question::Where(AskedPlace::OnRoute { route, place }) => {
            Some((*route, Places::At(*place)))
        }
        Question::Diagram {
            route,
            from,
            to,
            ..
        } => on_route(Some(*route), ends(*from, *to)),
        Question::Rows(asked) => on_route(asked.route, ends(asked.from, asked.to)),
        Question::Overlay(asked) => on_route(asked.route, ends(asked.from, asked.to)),
        _ => None,
    }
}

/// The places at which a command cuts a route, and that route.
pub(crate) fn places_of(command: &Command) -> Option<(RouteName, Places)>
    ensures { result ≡ spec.places_of command.now }
{
    match command {
        Command::Split { route, at, .. } => {
            Some((*route, Places::At(Place::Chainage(at.get()))))
        }
        Command::Realign {
            route,
            from,
            to,
            ..
        } => {
            let (from, to) = (Place::Chainage(from.get()), Place::Chainage(to.get()));
            Some((*route, Places::Between(from, to)))
        }
        _ => None,
    }
}

// The exact measure at a chainage of a route; none behind its end.
fn measure_at(route: &Route, chainage: u64) -> Option<Frac>
    ensures { IfSome result (HasMeasure route.now.marks (whole (pos chainage))) }
{
    if chainage > route.length() {
        return None;
    }
    route.marks.measure_at(Frac::of_whole(chainage as i64))
}

// The whole millimetre of a route to which a position goes as an end of a stretch; none where it locates nothing.
fn end_at(route: &Route, position: Expr) -> Option<u64>
    ensures { IfSome result (spec.GoesTo route.now position) }
{
    match locate(route, position) {
        Ok(chainage) => Some(snap(chainage)),
        Err(_) => None,
    }
}

// The millimetre of a route in which a position stands; none where it locates nothing.
fn cell_at(route: &Route, position: Expr) -> Option<u64>
    ensures { IfSome result (spec.StandsIn route.now position) }
{
    match locate(route, position) {
        Ok(chainage) => Some(cell(chainage, route.length())),
        Err(_) => None,
    }
}

/// The whole millimetre of a route to which a measure goes, as an end of a stretch does; none outside its marks.
pub(crate) fn chainage_at(route: &Route, measure: u64) -> Option<u64>
    ensures { IfSome result (spec.GoesTo route.now (Abs (whole (pos measure)))) }
{
    if measure > GREATEST_MEASURE {
        return None;
    }
    end_at(route, Expr::Abs(Frac::of_whole(measure as i64)))
}

// A thousand times a measure.
fn thousand_times(measure: Frac) -> Option<Frac>
    ensures { IfSome result (λ q. IsQuotient q (measure.num *ℤ pos 1000) measure.den) }
{
    Frac::new(measure.num().checked_mul(1_000)?, measure.den())
}

// A number that is not negative, and not above a thousand times the greatest measure.
fn as_unsigned(number: i128) -> Option<u64>
    ensures { IfSome result (λ n. number ≡ pos n) }
{
    if number < 0 || number > GREATEST_MEASURE as i128 * 1_000 {
        return None;
    }
    Some(number as u64)
}

// The nearest thousandth of a measure, a half going up.
fn thousandths_of(measure: Frac) -> Option<u64>
    ensures { IfSome result (spec.IsThousandths measure) }
{
    as_unsigned(thousand_times(measure)?.nearest())
}

/// A measure as people read it: a whole one as it is, another in three decimals, a half going up.
#[derive(Clone, Copy)]
struct ReadableMeasure {
    measure: Frac,
}

impl fmt::Display for ReadableMeasure {
    fn fmt<W: fmt::Write>(&self, f: &mut fmt::Formatter<W>) -> fmt::Result {
        let measure = self.measure;
        match thousandths_of(measure) {
            Some(thousandths) if !measure.is_whole() => {
                // thousandths are printed as millimetres are in metres
                let decimals = Metres::new(thousandths);
                write!(f, "{decimals}")
            }
            _ => write!(f, "{measure}"),
        }
    }
}

/// A place of a route as it is understood: its chainage in millimetres, and the measure that is said of it.
#[derive(Clone, Copy)]
pub(crate) struct UnderstoodPlace {
    pub(crate) chainage: u64,
    measure: Option<Frac>,
}

impl fmt::Display for UnderstoodPlace {
    fn fmt<W: fmt::Write>(&self, f: &mut fmt::Formatter<W>) -> fmt::Result {
        let metres = Metres::new(self.chainage);
        write!(f, "{metres} m")?;
        match self.measure {
            Some(measure) => {
                let measure = ReadableMeasure { measure };
                write!(f, " (measure {measure})")
            }
            None => Ok(()),
        }
    }
}

// The measure that is said of a place at this chainage: the one that it states, or else the one there.
fn measure_said(route: &Route, place: &Place, at: u64) -> Option<Frac>
    ensures { IfSome result (spec.IsSaid route.now place.now at) }
{
    match place {
        Place::Position(Expr::Abs(measure)) => Some(*measure),
        Place::Position(Expr::Rel(_, _)) => measure_at(route, at),
        Place::Position(Expr::Int(_)) => measure_at(route, at),
        Place::Chainage(_) => measure_at(route, at),
    }
}

fn understood_at(route: &Route, place: &Place, chainage: u64) -> UnderstoodPlace
    ensures chainage { result.chainage ≡ chainage }
    ensures measure { IfSome result.measure (spec.IsSaid route.now place.now chainage) }
{
    UnderstoodPlace {
        chainage,
        measure: measure_said(route, place, chainage),
    }
}

// The millimetre of a place that is asked for.
fn point_at(route: &Route, place: &Place) -> Option<u64>
    ensures { IfSome result (spec.IsAt (spec.StandsIn route.now) place.now) }
{
    match place {
        Place::Chainage(chainage) => Some(*chainage),
        Place::Position(position) => cell_at(route, *position),
    }
}

// The millimetre to which a place goes at an end of a stretch.
fn end_of(route: &Route, place: &Place) -> Option<u64>
    ensures { IfSome result (spec.IsAt (spec.GoesTo route.now) place.now) }
{
    match place {
        Place::Chainage(chainage) => Some(*chainage),
        Place::Position(position) => end_at(route, *position),
    }
}

fn point(route: &Route, place: &Place) -> Option<UnderstoodPlace>
    ensures { IfSome result (λ u. spec.IsAt (spec.StandsIn route.now) place.now u.chainage
        × IfSome u.measure (spec.IsSaid route.now place.now u.chainage)) }
{
    let chainage = point_at(route, place)?;
    Some(understood_at(route, place, chainage))
}

fn end(route: &Route, place: &Place) -> Option<UnderstoodPlace>
    ensures { IfSome result (λ u. spec.IsAt (spec.GoesTo route.now) place.now u.chainage
        × IfSome u.measure (spec.IsSaid route.now place.now u.chainage)) }
{
    let chainage = end_of(route, place)?;
    Some(understood_at(route, place, chainage))
}

/// Places of a route as they are understood: `from 1.000 m (measure 13) to 2.500 m (measure 14.500)`.
#[derive(Clone, Copy)]
pub(crate) enum UnderstoodPlaces {
    At(UnderstoodPlace),
    From(UnderstoodPlace),
    To(UnderstoodPlace),
    Between(UnderstoodPlace, UnderstoodPlace),
}

impl fmt::Display for UnderstoodPlaces {
    fn fmt<W: fmt::Write>(&self, f: &mut fmt::Formatter<W>) -> fmt::Result {
        match self {
            UnderstoodPlaces::At(at) => write!(f, "at {at}"),
            UnderstoodPlaces::From(from) => write!(f, "from {from}"),
            UnderstoodPlaces::To(to) => write!(f, "to {to}"),
            UnderstoodPlaces::Between(from, to) => write!(f, "from {from} to {to}"),
        }
    }
}

/// How places of a route are understood; not at all where a position locates nothing.
pub(crate) fn understood(route: &Route, places: &Places) -> Option<UnderstoodPlaces> {
    match places {
        Places::At(at) => Some(UnderstoodPlaces::At(point(route, at)?)),
        Places::From(from) => Some(UnderstoodPlaces::From(end(route, from)?)),
        Places::To(to) => Some(UnderstoodPlaces::To(end(route, to)?)),
        Places::Between(from, to) => {
            let from = end(route, from)?;
            let to = end(route, to)?;
            Some(UnderstoodPlaces::Between(from, to))
        }
    }
}
