//! Sets and lists of point numbers, each below 256.

use std::alloc::{AllocError, Global};

/// The most points of a site, and the most steps of a walk.
pub(crate) const POINTS: usize = 256;

/// A set of points.
#[derive(Clone, Copy)]
pub(crate) struct PointSet {
    words: [u64; 4],
}

impl PointSet {
    /// No point.
    pub(crate) fn new() -> PointSet {
        PointSet { words: [0; 4] }
    }

    /// Puts a point in.
    pub(crate) fn insert(&mut self, p: u8) {
        let bit = 1u64 << (p % 64);
        let word = (p / 64) as usize;
        self.words[word] |= bit;
    }

    /// Whether a point is in.
    pub(crate) fn contains(&self, p: u8) -> bool {
        let bit = 1u64 << (p % 64);
        let word = (p / 64) as usize;
        self.words[word] & bit != 0
    }
}

/// A way from point to point, of at most 256 points.
#[derive(Clone, Copy)]
pub(crate) struct Trail {
    points: [u8; POINTS],
    count: usize,
}

impl Trail {
    /// A way without points.
    pub(crate) fn new() -> Trail {
        Trail {
            points: [0; POINTS],
            count: 0,
        }
    }

    /// Begins anew with a point.
    pub(crate) fn begin(&mut self, first: u8) {
        self.points[0] = first;
        self.count = 1;
    }

    /// How many points it has.
    pub(crate) fn len(&self) -> usize {
        self.count
    }

    /// The point at a place, or the first point where it isn't so long.
    pub(crate) fn point(&self, place: usize) -> u8 {
        if place < POINTS {
            self.points[place]
        } else {
            self.points[0]
        }
    }

    /// Goes on to a point.
    pub(crate) fn push(&mut self, p: u8) {
        if self.count < POINTS {
            self.points[self.count] = p;
            self.count += 1;
        }
    }
}

/// A list of points for each point.
#[derive(Drop)]
pub(crate) struct PointLists {
    points: Vec<u8>,
    ends: Vec<u32>,
}

impl PointLists {
    /// No list so far.
    pub(crate) fn new(alloc: Global) -> PointLists {
        PointLists {
            points: Vec::new(alloc),
            ends: Vec::new(alloc),
        }
    }

    /// Adds a point to the list that is made.
    pub(crate) fn push(&mut self, p: u8) -> Result<(), AllocError> {
        self.points.push(p)?;
        Ok(())
    }

    /// Ends the list that is made. The first list is that of point 0.
    pub(crate) fn end_list(&mut self) -> Result<(), AllocError> {
        let end = u32::try_from(self.points.len()).unwrap_or(0);
        self.ends.push(end)?;
        Ok(())
    }

    /// Where the list of a number ends, or 0.
    fn end_of(&self, list: usize) -> usize {
        match self.ends.get(list) {
            Some(end) => *end as usize,
            None => 0,
        }
    }

    /// The list of a point.
    pub(crate) fn of(&self, p: u8) -> &[u8] {
        let list = p as usize;
        let first = if list == 0 { 0 } else { self.end_of(list - 1) };
        let past = self.end_of(list);
        if first <= past && past <= self.points.len() {
            &self.points[first..past]
        } else {
            &[]
        }
    }
}
