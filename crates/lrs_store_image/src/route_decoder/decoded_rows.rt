//! What rows say of routes.

use lrs_position::RouteName;
use std::marker::Model;

/// What a row says of a route.
#[derive(Clone, Copy)]
pub struct OfRoute<T> {
    pub route: RouteName,
    pub said: T,
}

impl<T> Model for OfRoute<T> {
    ghost use Rattle.lrs_store_tables.specs.Contents.Decoders.{OfRoute};

    ghost Value = { OfRoute T };

    ghost view = { λ r. record { route = r.route; said = r.said } };

    ghost inverse = { λ r. record { route = r.route; said = r.said } };
}

/// What a row says under its number.
#[derive(Clone, Copy)]
pub struct Numbered<T> {
    pub n: u64,
    pub said: T,
}

impl<T> Model for Numbered<T> {
    ghost use Rattle.lrs_store_tables.specs.Contents.Decoders.{Numbered};

    ghost Value = { Numbered T };

    ghost view = { λ r. record { n = r.n; said = r.said } };

    ghost inverse = { λ r. record { n = r.n; said = r.said } };
}
