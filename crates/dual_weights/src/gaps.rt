//! By how much a point breaks the rows.

ghost use Rattle.std.specs.Prelude.{◌<◌};

use crate::node::{Node, Spot};
use crate::rows::{DualRow, is_on_load};
use crate::value::{Pick, SetBits, members_of};
use cable_definitions::row::RowKind;
use cable_rows::RowPool;

/// The loads and the cables out of and into each point, and how often each set is left.
#[derive(Drop)]
pub(crate) struct Sums {
    load_out: [i64; 256],
    load_in: [i64; 256],
    uses_out: [i64; 256],
    uses_in: [i64; 256],
    leaving: [i64; 256],
}

/// No loads and no cables.
pub(crate) fn no_sums() -> Sums {
    Sums {
        load_out: [0; 256],
        load_in: [0; 256],
        uses_out: [0; 256],
        uses_in: [0; 256],
        leaving: [0; 256],
    }
}

impl Sums {
    /// Forgets the sums at these points and of the sets.
    fn clear(&mut self, spots: &[Spot]) {
        for spot in spots {
            let p = spot.at as usize;
            self.load_out[p] = 0;
            self.load_in[p] = 0;
            self.uses_out[p] = 0;
            self.uses_in[p] = 0;
        }
        self.leaving = [0; 256];
    }

    /// Adds a cable.
    fn add(&mut self, pick: &Pick) {
        let (p, q) = (pick.from as usize, pick.to as usize);
        self.load_out[p] = self.load_out[p].wrapping_add(pick.load);
        self.load_in[q] = self.load_in[q].wrapping_add(pick.load);
        self.uses_out[p] = self.uses_out[p].wrapping_add(1);
        self.uses_in[q] = self.uses_in[q].wrapping_add(1);
    }

    /// Counts the sets of a word of 64 that a cable leaves.
    fn leave(&mut self, sets: u64, word: usize)
        requires { word < 4 }
    {
        let mut left = sets;
        for bit in 0..64usize {
            if left == 0 {
                return;
            }
            if left % 2 == 1 {
                let set = 64 * word + bit;
                self.leaving[set] = self.leaving[set].wrapping_add(1);
            }
            left /= 2;
        }
    }

    /// Adds a cable to the sets that it leaves.
    fn add_leaving(&mut self, sets: &SetBits, pick: &Pick) {
        for word in 0..4usize {
            self.leave(sets.left_by(pick.from, pick.to, word), word);
        }
    }

    /// By how much the right side of a row is greater than its left side.
    fn gap_of(&self, row: &DualRow, uses: i64) -> i64 {
        let p = row.place as usize;
        match row.kind {
            RowKind::Out => 0,
            RowKind::Flow => row
                .right
                .wrapping_sub(self.load_out[p])
                .wrapping_add(self.load_in[p]),
            RowKind::Power => row.right.wrapping_add(self.load_in[p]),
            RowKind::Inlet => row.right.wrapping_add(self.uses_in[p]),
            RowKind::Bend => self.uses_in[p].wrapping_sub(self.uses_out[p]),
            RowKind::Cut => row.right.wrapping_sub(self.leaving[p]),
            RowKind::One => row.right.wrapping_add(uses),
        }
    }
}

/// How many cables are members of a row on arcs.
fn uses_of(node: &Node, picks: &[Pick], members: &[u32]) -> i64 {
    let mut uses: i64 = 0;
    for pick in picks {
        if let Some(link) = node.links.get(pick.place) {
            if members.binary_search(&link.arc).is_ok() {
                uses = uses.wrapping_add(1);
            }
        }
    }
    uses
}

/// How many cables are members of a row, where it is one on arcs.
fn uses_on(node: &Node, pool: &RowPool, picks: &[Pick], row: &DualRow) -> i64 {
    match row.kind {
        RowKind::One => uses_of(node, picks, members_of(pool, row.row)),
        _ => 0,
    }
}

/// A gap over 2^16; of a row on loads in units of this load.
fn scaled(gap: i64, kind: RowKind, unit: i64) -> i64 {
    let wide = gap.wrapping_mul(65_536);
    if is_on_load(kind) {
        return wide.wrapping_div_euclid(unit.max(1));
    }
    wide
}

/// Finds by how much a point breaks each row.
pub(crate) fn find_gaps(
    node: &Node,
    pool: &RowPool,
    sets: &SetBits,
    has_sets: bool,
    sums: &mut Sums,
    picks: &[Pick],
    rows: &mut [DualRow],
    unit: i64,
) {
    sums.clear(node.spots.as_slice());
    for pick in picks {
        sums.add(pick);
        if has_sets {
            sums.add_leaving(sets, pick);
        }
    }
    for row in rows {
        let uses = uses_on(node, pool, picks, row);
        row.found = scaled(sums.gap_of(row, uses), row.kind, unit);
    }
}
