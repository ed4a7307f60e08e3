//! The segments between near points, and which of them clash.

use crate::points::POINTS;
use plane_geometry::{Place, clash};
use site_model::{Point, Site};
use std::alloc::{AllocError, Global};

/// The most segments: a point has at most 22 near points.
pub(crate) const MOST_SEGMENTS: usize = 5632;

/// The number of a pair of points that is no segment.
const NONE: u16 = u16::MAX;

/// A segment between two points.
#[derive(Clone, Copy)]
pub(crate) struct Segment {
    first: u8,
    second: u8,
    /// Its length in metres.
    pub(crate) metres: i64,
    /// The charge on its pair in cost units.
    pub(crate) charge: i64,
}

/// The segments, by number and by their ends.
#[derive(Drop)]
pub(crate) struct Segments {
    list: Vec<Segment>,
    numbers: Vec<u16>,
    points: usize,
    words: usize,
    clashes: Vec<u64>,
}

impl Segments {
    /// No segment between so many points.
    pub(crate) fn new(alloc: Global, points: usize) -> Result<Segments, AllocError> {
        let pairs = points.wrapping_mul(points).min(POINTS * POINTS);
        Ok(Segments {
            list: Vec::new(alloc),
            numbers: Vec::from_elem(alloc, NONE, pairs)?,
            points,
            words: 0,
            clashes: Vec::new(alloc),
        })
    }

    /// The place of a pair in the table of numbers.
    fn place_of(&self, p: u8, q: u8) -> usize {
        (p as usize)
            .wrapping_mul(self.points)
            .wrapping_add(q as usize)
    }

    /// The number of the segment between two points. Where there is none, no segment has the answer as number.
    pub(crate) fn number(&self, p: u8, q: u8) -> usize {
        match self.numbers.get(self.place_of(p, q)) {
            Some(number) => *number as usize,
            None => NONE as usize,
        }
    }

    /// Whether there is a segment between two points.
    pub(crate) fn has(&self, p: u8, q: u8) -> bool {
        self.number(p, q) < self.list.len()
    }

    /// The segment of a number.
    pub(crate) fn get(&self, number: usize) -> Option<&Segment> {
        self.list.get(number)
    }

    /// Enters the number of a pair.
    fn enter(&mut self, p: u8, q: u8, number: u16) {
        let place = self.place_of(p, q);
        if let Some(entry) = self.numbers.as_mut_slice().get_mut(place) {
            *entry = number;
        }
    }

    /// Numbers the segment between two points, unless it has a number or there is no room for more.
    pub(crate) fn add(&mut self, p: u8, q: u8, metres: i64, charge: i64) -> Result<(), AllocError> {
        if self.has(p, q) || self.list.len() >= MOST_SEGMENTS {
            return Ok(());
        }
        let number = u16::try_from(self.list.len()).unwrap_or(NONE);
        self.enter(p, q, number);
        self.enter(q, p, number);
        self.list.push(Segment {
            first: p,
            second: q,
            metres,
            charge,
        })?;
        Ok(())
    }

    /// Lists which segments clash.
    pub(crate) fn list_clashes(&mut self, alloc: Global, site: &Site) -> Result<(), AllocError> {
        let count = self.list.len();
        self.words = count.wrapping_add(63) / 64;
        self.clashes = Vec::from_elem(alloc, 0u64, count.wrapping_mul(self.words))?;
        for number in 0..count {
            self.list_clashes_of(site.points(), number);
        }
        Ok(())
    }

    /// Lists which segments of lower number clash with one.
    fn list_clashes_of(&mut self, points: &[Point], number: usize) {
        let Some(segment) = self.list.get(number).copied() else {
            return;
        };
        for other in 0..number {
            if self.clashes_with(points, segment, other) {
                self.mark(number, other);
                self.mark(other, number);
            }
        }
    }

    /// Whether a segment clashes with the one of a number.
    fn clashes_with(&self, points: &[Point], segment: Segment, other: usize) -> bool {
        match self.list.get(other) {
            None => false,
            Some(second) => segments_clash(points, segment, *second),
        }
    }

    /// Marks that a segment clashes with another.
    fn mark(&mut self, number: usize, other: usize) {
        let place = number.wrapping_mul(self.words).wrapping_add(other / 64);
        if let Some(word) = self.clashes.as_mut_slice().get_mut(place) {
            *word |= 1u64 << (other % 64);
        }
    }

    /// Which segments clash with the one of a number: 64 bits in each word. None where there is no such segment.
    pub(crate) fn clashes_of(&self, number: usize) -> &[u64] {
        let first = number.wrapping_mul(self.words);
        let past = first.wrapping_add(self.words);
        if first <= past && past <= self.clashes.len() {
            &self.clashes[first..past]
        } else {
            &[]
        }
    }

    /// Whether the segments of two numbers clash.
    pub(crate) fn do_clash(&self, number: usize, other: usize) -> bool {
        let place = number.wrapping_mul(self.words).wrapping_add(other / 64);
        match self.clashes.get(place) {
            None => false,
            Some(word) => *word >> (other % 64) & 1 != 0,
        }
    }
}

/// The place of a point.
fn place_at(points: &[Point], p: u8) -> Option<Place> {
    match points.get(p as usize) {
        None => None,
        Some(point) => Some(point.at),
    }
}

/// Whether two segments of different ends clash.
fn segments_clash(points: &[Point], segment: Segment, second: Segment) -> bool {
    let Some(a) = place_at(points, segment.first) else {
        return false;
    };
    let Some(b) = place_at(points, segment.second) else {
        return false;
    };
    let Some(c) = place_at(points, second.first) else {
        return false;
    };
    let Some(d) = place_at(points, second.second) else {
        return false;
    };
    clash(a, b, c, d)
}
