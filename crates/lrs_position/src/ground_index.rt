//! The stretches of links that routes run over.

ghost use Rattle.std.specs.Prelude.{◌≡◌, ℕ, ◌+◌, ◌≤◌, ◌<◌, false, position, Some, None, List, IfNone, IfSome, IsSome, OnOk, OnErr, [], ◌∷◌, if◌then◌else◌, true, ◌⊎◌};
ghost use Rattle.std.specs.List.{AllByRecursion};
ghost use Rattle.std.specs.Option.{option_and, option_map};
ghost use Rattle.std.specs.FinMap as map;
ghost use Rattle.lrs_measure.specs.Texts.{Name};
ghost use Rattle.lrs_element.specs.Course.{Millimetre, expand, course_of, runs_over, meets};
ghost use Rattle.lrs_element.specs.Pieces.{IsFilled};
ghost use Rattle.lrs_position.specs.Index.Ground as specs;
ghost use Rattle.lrs_position.specs.Index.Ground.{Stretches, is_shared, is_run_once, HasGained, IsWhole, AreWhole, StaysWhole};
ghost use Rattle.lrs_position.specs.Index.Stretches.{AreApart, IsFirst, IsLast, IsCut, AreParts, cut_in_two, handed};
ghost use Rattle.lrs_position.specs.Index.MetRoutes.{IsAmong, RunsBetween};

use crate::RouteName;
use lrs_element::Piece;
use std::alloc::{AllocError, Global};
use std::collections::{BTreeMap, BTreeSet};
use std::marker::Model;

/// A stretch of a link, from where it begins: the edge where it ends, and the route that runs over it.
#[derive(Clone, Copy)]
pub struct LinkStretch {
    pub end: u32,
    pub route: RouteName,
}

/// Which route runs over which ground: stretches of links that have no millimetre in common.
#[derive(Drop)]
pub struct GroundIndex {
    // By the link and the millimetre where a stretch begins.
    stretches: BTreeMap<(u32, u32), LinkStretch>,
}

impl Model for GroundIndex {
    ghost use Rattle.std.specs.FinMap as map;
    ghost use Rattle.std.specs.Coded.{coded_ℕ, coded×};
    ghost use Rattle.lrs_position.specs.Index.Ground.{Stretches, stretch_code};
    ghost use Rattle.lrs_position.specs.Index.Stretches.{AreApart};

    ghost Value = { Stretches };

    ghost coded = { map.code (coded× coded_ℕ coded_ℕ) stretch_code };

    ghost view = { λ a. map.from_entries a.stretches.entries };

    ghost invariant = { λ a. AreApart (map.from_entries a.stretches.entries) };
}

impl GroundIndex {
    /// No route runs over any ground. It needs no memory.
    pub fn new(alloc: Global) -> Self
        ensures empty { result ≡ map.empty }
        ensures nothing { (m : Millimetre) → specs.route_over result m ≡ None }
    {
        GroundIndex {
            stretches: BTreeMap::new(alloc),
        }
    }

    /// The last stretch of a link that begins at a millimetre or before it, and where it begins.
    fn last_at(&self, link: u32, mm: u32) -> Option<(u32, LinkStretch)>
        ensures none { IfNone result (IsFirst self.now link (mm + 1)) }
        ensures last { IfSome result (λ found. IsLast self.now link (mm + 1) found.0 found.1) }
    {
        let ((of, begin), stretch) = self.stretches.range(..=(link, mm)).next_back()?;
        if *of == link {
            Some((*begin, *stretch))
        } else {
            None
        }
    }

    /// The last stretch of a link that begins before an edge, and where it begins.
    fn last_before(&self, link: u32, edge: u32) -> Option<(u32, LinkStretch)>
        ensures none { IfNone result (IsFirst self.now link edge) }
        ensures last { IfSome result (λ found. IsLast self.now link edge found.0 found.1) }
        ensures apart { AreApart self.now }
    {
        // The stretches are apart.
        let _ = &self.stretches;
        self.last_at(link, edge.checked_sub(1)?)
    }

    /// The route that runs over a millimetre of a link.
    pub fn route_over(&self, link: u32, mm: u32) -> Option<RouteName>
        ensures { result ≡ specs.route_over self.now (link, mm) }
    {
        // The stretches are apart.
        let _ = &self.stretches;
        let (_, stretch) = self.last_at(link, mm)?;
        if mm < stretch.end {
            Some(stretch.route)
        } else {
            None
        }
    }

    // The last stretch of a link that has a millimetre between two edges, and where it begins.
    fn last_met(&self, link: u32, from: u32, edge: u32) -> Option<(u32, LinkStretch)>
        ensures none { IfNone result ((route : Name)
            → RunsBetween (specs.route_over self.now) link from edge route → ⊥) }
        ensures last { IfSome result (λ found. IsLast self.now link edge found.0 found.1) }
        ensures met { IfSome result (λ found. RunsBetween
            (specs.route_over self.now) link from edge found.1.route) }
        ensures apart { AreApart self.now }
    {
        // The stretches are apart.
        let _ = &self.stretches;
        let (begin, stretch) = self.last_before(link, edge)?;
        if from < edge && from < stretch.end {
            Some((begin, stretch))
        } else {
            None
        }
    }

    /// Adds the routes that run over a millimetre of a link, from one edge of it up to another, to those found before.
    ///
    /// # Errors
    /// When memory runs out; some of the routes may have been added then.
    pub fn routes_over(
        &self,
        link: u32,
        from: u32,
        to: u32,
        found: &mut BTreeSet<RouteName>,
    ) -> Result<(), AllocError>
        ensures met { OnOk result ((route : Name) → RunsBetween
            (specs.route_over self.now) link from to route → IsAmong route found.new) }
        ensures kept { (route : Name) → IsAmong route found.old → IsAmong route found.new }
        ensures only { (route : Name) → IsAmong route found.new → IsAmong route found.old
            ⊎ RunsBetween (specs.route_over self.now) link from to route }
    {
        let mut edge = to;
        while let Some((begin, stretch)) = self.last_met(link, from, edge) {
            found.insert(stretch.route)?;
            edge = begin;
        }
        Ok(())
    }

    /// Whether a route runs over a millimetre of the piece, whichever way.
    pub fn shares(&self, piece: &Piece) -> bool
        ensures { result ≡ is_shared self.now (expand piece.now) }
    {
        match self.last_before(piece.link, piece.to) {
            Some((_, stretch)) => piece.from < piece.to && piece.from < stretch.end,
            None => false,
        }
    }

    /// The first piece of which a route runs over a millimetre.
    pub fn first_taken(&self, pieces: &[Piece]) -> Option<usize>
        ensures { result ≡ position (λ p. is_shared self.now (expand p)) pieces.now }
    {
        pieces.iter().position(|piece| self.shares(piece))
    }

    // Puts a stretch in where none begins, or in the place of the one that begins there.
    fn put(&mut self, link: u32, begin: u32, stretch: LinkStretch) -> Result<(), AllocError>
        requires apart { AreApart (map.insert self.old (link, begin) stretch) }
        ensures ok { OnOk result (self.new ≡ map.insert self.old (link, begin) stretch) }
        ensures err { OnErr result (self.new ≡ self.old) }
    {
        self.stretches.insert((link, begin), stretch)?;
        Ok(())
    }

    // Puts a stretch in the place of one that begins there. It needs no memory.
    fn replace(&mut self, link: u32, begin: u32, stretch: LinkStretch)
        requires there { IsSome (map.get self.old (link, begin)) }
        requires apart { AreApart (map.insert self.old (link, begin) stretch) }
        ensures { self.new ≡ map.insert self.old (link, begin) stretch }
    {
        match self.stretches.insert((link, begin), stretch) {
            Ok(_) => {}
            Err(_) => unreachable!(),
        }
    }

    // Takes out the stretch that begins there. It needs no memory.
    fn remove(&mut self, link: u32, begin: u32)
        ensures { self.new ≡ map.remove self.old (link, begin) }
    {
        self.stretches.remove(&(link, begin));
    }

    // Cuts the stretch that crosses an edge of a link, if one does. Without memory nothing changes.
    fn cut(&mut self, link: u32, edge: u32) -> Result<(), AllocError>
        ensures same { (m : Millimetre) → specs.route_over self.new m
            ≡ specs.route_over self.old m }
        ensures parts { AreParts self.old self.new }
        ensures cut { OnOk result (IsCut self.new link edge) }
    {
        match self.last_before(link, edge) {
            Some((begin, stretch)) => {
                if edge < stretch.end {
                    self.cut_stretch(link, begin, &stretch, edge)?;
                }
                Ok(())
            }
            None => Ok(()),
        }
    }

    // Cuts a stretch at an edge within it. Without memory nothing changes.
    fn cut_stretch(
        &mut self,
        link: u32,
        begin: u32,
        stretch: &LinkStretch,
        edge: u32,
    ) -> Result<(), AllocError>
        requires there { map.get self.old (link, begin) ≡ Some stretch.now }
        requires inside { begin < edge }
        requires crosses { edge < stretch.now.end }
        ensures ok { OnOk result (self.new ≡ cut_in_two self.old link begin edge stretch.now) }
        ensures err { OnErr result (self.new ≡ self.old) }
    {
        // The stretches are apart.
        let _ = &self.stretches;
        let route = stretch.route;
        self.replace(link, begin, LinkStretch { end: edge, route });
        match self.put(link, edge, *stretch) {
            Ok(()) => Ok(()),
            Err(fault) => {
                self.replace(link, begin, *stretch);
                Err(fault)
            }
        }
    }

    // Adds the ground of a piece to a route, as a stretch of its own. Without memory nothing changes.
    fn add(&mut self, route: RouteName, piece: Piece) -> Result<(), AllocError>
        requires filled { IsFilled piece }
        requires free { is_shared self.old (expand piece) ≡ false }
        ensures ok { OnOk result (HasGained self.old self.new route (piece ∷ [])) }
        ensures err { OnErr result (self.new ≡ self.old) }
    {
        // The stretches are apart.
        let _ = &self.stretches;
        let end = piece.to;
        self.put(piece.link, piece.from, LinkStretch { end, route })?;
        Ok(())
    }

    /// Adds the ground of pieces to a route, each as a stretch of its own.
    ///
    /// # Errors
    /// When memory runs out; nothing has changed then.
    pub fn add_all(&mut self, route: RouteName, pieces: &[Piece]) -> Result<(), AllocError>
        requires filled { AllByRecursion IsFilled pieces.now }
        requires once { is_run_once (course_of pieces.now) ≡ true }
        requires free { is_shared self.old (course_of pieces.now) ≡ false }
        ensures ok { OnOk result (HasGained self.old self.new route pieces.now) }
        ensures err { OnErr result (self.new ≡ self.old) }

        // Pieces without a millimetre of these stay whole.
        ensures whole { OnOk result ((others : List Piece)
            → meets (course_of others) (course_of pieces.now) ≡ false → AreWhole self.old others
            → AreWhole self.new others) }
    {
        for (i, piece) in pieces.iter().enumerate() {
            match self.add(route, *piece) {
                Ok(()) => {}
                Err(fault) => {
                    self.remove_added(&pieces[..i]);
                    return Err(fault);
                }
            }
        }
        Ok(())
    }

    /// Takes out again what `add_all` added last. It needs no memory.
    pub fn remove_added(&mut self, pieces: &[Piece])
        ensures { (before : Stretches) → (route : Name) → HasGained before self.old route pieces.now
            → self.new ≡ before }
    {
        for piece in pieces {
            self.remove(piece.link, piece.from);
        }
    }

    /// Cuts the stretches at both edges of each piece, so that each lies wholly within a piece or wholly
    /// outside it. The same route runs over each millimetre.
    ///
    /// # Errors
    /// When memory runs out; some cuts may stand then.
    pub fn cut_at(&mut self, pieces: &[Piece]) -> Result<(), AllocError>
        ensures same { (m : Millimetre) → specs.route_over self.new m
            ≡ specs.route_over self.old m }
        ensures whole { OnOk result (AreWhole self.new pieces.now) }
        ensures others { StaysWhole self.old self.new }
    {
        for piece in pieces {
            self.cut_piece(piece)?;
        }
        Ok(())
    }

    // Cuts the stretches at both edges of a piece.
    fn cut_piece(&mut self, piece: &Piece) -> Result<(), AllocError>
        ensures same { (m : Millimetre) → specs.route_over self.new m
            ≡ specs.route_over self.old m }
        ensures whole { OnOk result (IsWhole self.new piece.now) }
        ensures others { StaysWhole self.old self.new }
    {
        self.cut(piece.link, piece.from)?;
        self.cut(piece.link, piece.to)?;
        Ok(())
    }

    /// Frees the ground of pieces, so that no route runs over it. It needs no memory.
    pub fn free(&mut self, pieces: &[Piece])
        requires whole { AreWhole self.old pieces.now }
        ensures over { (m : Millimetre) → specs.route_over self.new m
            ≡ (if runs_over (course_of pieces.now) m then None else specs.route_over self.old m) }
        ensures others { StaysWhole self.old self.new }
    {
        self.change_all(pieces, &None);
    }

    /// Hands the ground of pieces that routes run over to another route. It needs no memory.
    pub fn hand_over(&mut self, pieces: &[Piece], route: RouteName)
        requires whole { AreWhole self.old pieces.now }
        ensures over { (m : Millimetre) → specs.route_over self.new m
            ≡ (if runs_over (course_of pieces.now) m then option_map (λ r.
            route) (specs.route_over self.old m) else specs.route_over self.old m) }
        ensures others { StaysWhole self.old self.new }
    {
        self.change_all(pieces, &Some(route));
    }

    // Gives the stretches on pieces another route, or with none takes them out.
    fn change_all(&mut self, pieces: &[Piece], heir: &Option<RouteName>)
        requires whole { AreWhole self.old pieces.now }
        ensures over { (m : Millimetre) → specs.route_over self.new m
            ≡ (if runs_over (course_of pieces.now) m then option_and
            (specs.route_over self.old m) heir.now else specs.route_over self.old m) }
        ensures others { StaysWhole self.old self.new }
    {
        for piece in pieces {
            self.change_piece(piece, heir);
        }
    }

    // Gives the stretches on a piece another route, or with none takes them out, from its end backwards.
    fn change_piece(&mut self, piece: &Piece, heir: &Option<RouteName>)
        requires whole { IsWhole self.old piece.now }
        ensures over { (m : Millimetre) → specs.route_over self.new m
            ≡ (if runs_over (expand piece.now) m then option_and
            (specs.route_over self.old m) heir.now else specs.route_over self.old m) }
        ensures others { StaysWhole self.old self.new }
    {
        // The stretches are apart.
        let _ = &self.stretches;
        let mut edge = piece.to;
        while let Some((begin, stretch)) = self.last_within(piece.link, piece.from, edge) {
            self.change(piece.link, begin, stretch, heir);
            edge = begin;
        }
    }

    // The last stretch that begins from one edge of a link on and before another, and where it begins.
    fn last_within(&self, link: u32, from: u32, edge: u32) -> Option<(u32, LinkStretch)>
        ensures none { IfNone result ((a : ℕ) → from ≤ a → a < edge
            → map.get self.now (link, a) ≡ None) }
        ensures last { IfSome result (λ found. IsLast self.now link edge found.0 found.1) }
        ensures from { IfSome result (λ found. from ≤ found.0) }
    {
        let (begin, stretch) = self.last_before(link, edge)?;
        if from <= begin {
            Some((begin, stretch))
        } else {
            None
        }
    }

    // Gives a stretch another route, or with none takes it out. It needs no memory.
    fn change(&mut self, link: u32, begin: u32, stretch: LinkStretch, heir: &Option<RouteName>)
        requires there { map.get self.old (link, begin) ≡ Some stretch }
        ensures here { map.get self.new (link, begin) ≡ handed heir.now stretch }
        ensures others { (m : Millimetre) → (m ≡ (link, begin) → ⊥)
            → map.get self.new m ≡ map.get self.old m }
    {
        // The stretches are apart.
        let _ = &self.stretches;
        let end = stretch.end;
        match heir {
            Some(route) => self.replace(link, begin, LinkStretch { end, route: *route }),
            None => self.remove(link, begin),
        }
    }
}
