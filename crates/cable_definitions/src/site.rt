//! What a site is made of: its version and mode, points, cable types, obstacles and pair rules, and the codes of its faults.

ghost use Rattle.std.specs.Prelude.{◌≡◌, ◌↔◌, ◌≤◌, IsTrue, IsSome, IfSome, length};
ghost use Rattle.cable_definitions.specs.Naming.{IsName, is_name_byte};

use crate::place::Place;
use std::marker::Model;

/// The version of a site's form.
#[derive(Clone, Copy, Debug, PartialEq, Eq)]
pub enum Version {
    One,
    Two,
}

/// Whether cables may join in a turbine.
#[derive(Clone, Copy, Debug, PartialEq, Eq)]
pub enum Mode {
    Tree,
    Strings,
}

/// What stands at a point.
#[derive(Clone, Copy, Debug, PartialEq, Eq)]
pub enum Kind {
    Turbine { power: u32 },
    Substation { feeders: u32, power: u32 },
    Bend,
}

impl Mode {
    ghost use Rattle.cable_definitions.specs.Text.{mode_word};

    /// The word of the mode in a site's lines and in a report.
    pub fn word(self) -> &'static [u8]
        ensures word { result.now ≡ mode_word self }
    {
        match self {
            Mode::Tree => b"tree",
            Mode::Strings => b"strings",
        }
    }
}

impl Kind {
    ghost use Rattle.std.specs.Prelude.{IsTrue};
    ghost use Rattle.cable_definitions.specs.Arcs.{is_turbine, is_substation, is_bend, power_of_kind};
    ghost use Rattle.cable_definitions.specs.Choice.{least_load as least_load_of};

    /// Whether it is a turbine.
    pub fn is_turbine(self) -> bool
        ensures turbine { result ≡ is_turbine self }
    {
        matches!(self, Kind::Turbine { .. })
    }

    /// Whether it is a substation.
    pub fn is_substation(self) -> bool
        ensures substation { result ≡ is_substation self }
    {
        matches!(self, Kind::Substation { .. })
    }

    /// Whether it is a bend.
    pub fn is_bend(self) -> bool
        ensures bend { result ≡ is_bend self }
    {
        matches!(self, Kind::Bend)
    }

    /// What it feeds in, in power units: a turbine its power, another point nothing.
    pub fn power(self) -> u32
        ensures power { result ≡ power_of_kind self }
    {
        match self {
            Kind::Turbine { power } => power,
            Kind::Substation { .. } | Kind::Bend => 0,
        }
    }

    /// The least load of a used cable out of it, in power units: its own power for a turbine, and 1 for another point.
    pub fn least_load(self) -> u32
        ensures least { result ≡ least_load_of self }
    {
        match self {
            Kind::Turbine { power } => power,
            Kind::Substation { .. } | Kind::Bend => 1,
        }
    }
}

/// A name of 1 to 16 bytes, which are seen as a list.
#[derive(Debug, Drop)]
pub struct Name {
    bytes: [u8; 16],
    len: usize,
}

impl Model for Name {
    ghost use Rattle.std.specs.Prelude.{List, ℕ, take, ◌≤◌};
    ghost use Rattle.cable_definitions.specs.Naming.{IsName};

    ghost Value = { List ℕ };

    ghost view = { λ n. take n.len n.bytes };

    ghost invariant = { λ n. (n.len ≤ 16) × IsName (take n.len n.bytes) };
}

impl Name {
    /// The name of these bytes; none exactly where they are no name.
    pub fn new(bytes: &[u8]) -> Option<Name>
        ensures valid { IsSome result ↔ IsName bytes.now }
        ensures value { IfSome result (λ name. name ≡ bytes.now) }
    {
        if !is_name(bytes) {
            return None;
        }
        let mut kept = [0u8; 16];
        kept[..bytes.len()].copy_from_slice(bytes);
        Some(Name {
            bytes: kept,
            len: bytes.len(),
        })
    }

    /// The bytes of the name.
    pub fn as_slice(&self) -> &[u8]
        ensures value { result.now ≡ self.now }
        ensures valid { IsName self.now }
    {
        &self.bytes[..self.len]
    }
}

/// Whether the bytes are 1 to 16 letters, digits, `_`, `-` or `.`.
fn is_name(bytes: &[u8]) -> bool
    ensures { IsTrue result ↔ IsName bytes.now }
{
    if bytes.is_empty() || bytes.len() > 16 {
        return false;
    }
    bytes.iter().all(|byte| is_name_byte(*byte))
}

/// Whether the byte may stand in a name.
fn is_name_byte(byte: u8) -> bool
    ensures { result ≡ is_name_byte byte }
{
    matches!(byte, b'A'..=b'Z' | b'a'..=b'z' | b'0'..=b'9' | b'_' | b'-' | b'.')
}

/// A turbine, a substation or a bend.
#[derive(Debug, Drop)]
pub struct Point {
    pub name: Name,
    pub at: Place,
    pub kind: Kind,
}

/// A cable type.
#[derive(Clone, Copy, Debug, PartialEq, Eq)]
pub struct CableType {
    pub capacity: u32,
    pub price: u32,
    pub loss: u32,
}

/// What is ruled of a pair of points.
#[derive(Clone, Copy, Debug, PartialEq, Eq)]
pub enum PairRule {
    Charge(u64),
    Closed,
}

/// A rule on the pair of two points, by their numbers.
#[derive(Clone, Copy, Debug, PartialEq, Eq)]
pub struct Pair {
    pub a: u32,
    pub b: u32,
    pub rule: PairRule,
}

/// A closed polygon, seen as its corners.
#[derive(Drop)]
pub struct Obstacle {
    corners: Vec<Place>,
}

impl Model for Obstacle {
    ghost use Rattle.std.specs.Prelude.{List};
    ghost use Rattle.cable_definitions.specs.declared.place.Place.{Place};

    ghost Value = { List Place };

    ghost view = { λ o. o.corners.items };
}

impl Obstacle {
    /// The polygon with these corners.
    pub fn new(corners: Vec<Place>) -> Obstacle
        ensures { result ≡ corners.items }
    {
        Obstacle { corners }
    }

    /// The corners of the polygon.
    pub fn as_slice(&self) -> &[Place]
        ensures { result.now ≡ self.now }
    {
        self.corners.as_slice()
    }
}

/// The rules that an item of a site may break, in their order.
#[derive(Clone, Copy, Debug, PartialEq, Eq)]
pub enum SiteCode {
    TooLong,
    Form,
    Shape,
    Range,
    BadName,
    SameName,
    SamePlace,
    UnknownName,
    SamePair,
    InObstacle,
    TooMany,
}

impl SiteCode {
    ghost use Rattle.cable_definitions.specs.Answers.{code_word};

    /// The word of the code in a note.
    pub fn word(self) -> &'static [u8]
        ensures word { result.now ≡ code_word self }
    {
        match self {
            SiteCode::TooLong => b"TooLong",
            SiteCode::Form => b"Form",
            SiteCode::Shape => b"Shape",
            SiteCode::Range => b"Range",
            SiteCode::BadName => b"BadName",
            SiteCode::SameName => b"SameName",
            SiteCode::SamePlace => b"SamePlace",
            SiteCode::UnknownName => b"UnknownName",
            SiteCode::SamePair => b"SamePair",
            SiteCode::InObstacle => b"InObstacle",
            SiteCode::TooMany => b"TooMany",
        }
    }
}
