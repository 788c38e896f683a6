//! The entries of the lists of an image, as they are compared.

ghost use Rattle.std.specs.Prelude.{◌≡◌};
ghost use Rattle.std.specs.Cmp.Lexicographic.{pointwise};
ghost use Rattle.lrs_machine.specs.Image.{asset_entry};
ghost use Rattle.lrs_difference.specs.Difference.{facts_of};
ghost use Rattle.lrs_difference.specs.Merging.{same_piece};
ghost use Rattle.lrs_difference.specs.Items.{same_ground, same_kind, same_mark};

use crate::line::{AssetFacts, Sign};
use crate::merge::Entry;
use crate::text::{write_asset, write_class, write_link, write_route, write_sign};
use lrs_element::{Course, Link, Mark, Piece};
use lrs_events::{Asset, Class, Kind};
use lrs_machine::RouteRow;
use std::io;
use std::io::Write;

impl Entry for Link {
    ghost use Rattle.lrs_machine.specs.Image.{link_entry};
    ghost use Rattle.lrs_difference.specs.Difference.{link_item};
    ghost use Rattle.lrs_difference.specs.Items.{same_link};

    ghost same = { λ a b. same_link (link_entry a) (link_entry b) };

    ghost item = { λ link. link_item (link_entry link) };

    fn is_same(&self, other: &Link) -> bool {
        self.number == other.number && self.length == other.length
    }

    fn write<W: Write>(&self, writer: &mut W, sign: Sign) -> io::Result<()> {
        write_sign(writer, sign)?;
        write_link(writer, self.number, self.length)
    }
}

fn is_same_kind(one: Kind, other: Kind) -> bool
    ensures { result ≡ same_kind one other }
{
    one == other
}

impl Entry for Class {
    ghost use Rattle.lrs_difference.specs.Difference.{class_item};
    ghost use Rattle.lrs_difference.specs.Items.{same_class};

    ghost same = { λ a b. same_class (a.name, a.kind) (b.name, b.kind) };

    ghost item = { λ class. class_item (class.name, class.kind) };

    fn is_same(&self, other: &Class) -> bool {
        self.name == other.name && is_same_kind(self.kind, other.kind)
    }

    fn write<W: Write>(&self, writer: &mut W, sign: Sign) -> io::Result<()> {
        write_sign(writer, sign)?;
        write_class(writer, self.name, self.kind)
    }
}

fn are_same_pieces(one: &[Piece], other: &[Piece]) -> bool
    ensures { result ≡ pointwise same_piece one.now other.now }
{
    one == other
}

fn is_same_course(one: &Course, other: &Course) -> bool
    ensures { result ≡ pointwise same_ground one.now other.now }
{
    are_same_pieces(one.pieces(), other.pieces())
}

fn are_same_marks(one: &[Mark], other: &[Mark]) -> bool
    ensures { result ≡ pointwise same_mark one.now other.now }
{
    one == other
}

impl Entry for RouteRow {
    ghost use Rattle.lrs_machine.specs.Image.{route_entry};
    ghost use Rattle.lrs_difference.specs.Difference.{route_item};
    ghost use Rattle.lrs_difference.specs.Items.{same_route};

    ghost same = { λ a b. same_route (route_entry a) (route_entry b) };

    ghost item = { λ row. route_item (route_entry row) };

    fn is_same(&self, other: &RouteRow) -> bool {
        let one = &self.route;
        let other = &other.route;
        one.name == other.name
            && is_same_course(&one.course, &other.course)
            && are_same_marks(one.marks.list(), other.marks.list())
    }

    fn write<W: Write>(&self, writer: &mut W, sign: Sign) -> io::Result<()> {
        let route = &self.route;
        write_sign(writer, sign)?;
        write_route(writer, &route.name, &route.course, &route.marks)
    }
}

/// What a difference tells of an asset.
pub(crate) fn facts_of(asset: &Asset) -> AssetFacts
    ensures { result ≡ facts_of (asset_entry asset.now) }
{
    AssetFacts {
        number: asset.number,
        class: asset.class,
        value: asset.value,
        lateral: asset.lateral,
    }
}

impl Entry for Asset {
    ghost use Rattle.lrs_machine.specs.Image.{asset_entry};
    ghost use Rattle.lrs_difference.specs.declared.line.Item.TheVariants as item;
    ghost use Rattle.lrs_difference.specs.Difference.{facts_of};
    ghost use Rattle.lrs_difference.specs.Items.{same_asset};

    ghost same = { λ a b. same_asset (facts_of (asset_entry a)) (facts_of (asset_entry b)) };

    ghost item = { λ asset. item.Asset (facts_of (asset_entry asset)) };

    fn is_same(&self, other: &Asset) -> bool {
        self.number == other.number
            && self.class == other.class
            && self.value == other.value
            && self.lateral == other.lateral
    }

    fn write<W: Write>(&self, writer: &mut W, sign: Sign) -> io::Result<()> {
        write_sign(writer, sign)?;
        write_asset(writer, &facts_of(self))
    }
}
