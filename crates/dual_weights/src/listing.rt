//! The weights and the shares that a node's dual weights give.

ghost use Rattle.std.specs.Prelude.{◌≤◌, ◌^◌, ◌≡◌, length};

use crate::rows::MOST_WEIGHT;
use crate::steps::Dual;
use crate::value::least_free;
use bound_shares::Shares;
use cable_definitions::row::RowKind;
use cable_rows::RowPool;
use node_works::Weights;

/// The greatest share.
const WHOLE: i64 = 1_048_576;

impl Dual {
    /// The least slack of the free arcs out of each turbine, under the weights that were valued last; `i128::MAX` where there is none.
    fn free_lows(&self) -> [i128; 256] {
        let mut lows = [i128::MAX; 256];
        for spot in &self.node.spots {
            if spot.is_turbine {
                lows[spot.at as usize] = least_free(&self.node, &self.weights, spot);
            }
        }
        lows
    }

    /// Makes the kept weights the tried ones, and gives each row on the cables out of a turbine the least slack of its free arcs, so that none of them lowers
    /// the value; the first such row of a turbine alone has a weight.
    fn settle(&mut self, pool: &RowPool) {
        self.try_kept();
        self.value(pool);
        let lows = self.free_lows();
        let mut is_weighed = [false; 256];
        for row in &mut self.rows {
            let p = row.place as usize;
            if row.kind == RowKind::Out && !is_weighed[p] {
                is_weighed[p] = true;
                if lows[p] < i128::MAX {
                    row.trial = lows[p].clamp(-MOST_WEIGHT, MOST_WEIGHT);
                }
            }
        }
    }

    /// The weights in order of row.
    pub(crate) fn list(&mut self, pool: &RowPool, weights: &mut Weights) {
        self.settle(pool);
        weights.clear();
        for row in &self.rows {
            if row.trial != 0 {
                let _ = weights.push(row.row, row.trial);
            }
        }
    }

    /// The average use of the link in a place, over 2^20.
    fn use_of(&self, place: usize) -> i64 {
        match self.uses.get(place) {
            Some(own) => *own,
            None => 0,
        }
    }

    /// The shares of the arcs: the averages raised by an eighth, at most 2^20.
    pub(crate) fn share(&self, shares: &mut Shares)
        ensures { length shares.new ≡ length shares.old }
    {
        for (place, link) in self.node.links.iter().enumerate() {
            set_share(shares, link.arc, self.use_of(place));
        }
    }
}

/// Gives an arc its share.
fn set_share(shares: &mut Shares, arc: u32, own: i64)
    ensures { length shares.new ≡ length shares.old }
{
    if (arc as usize) < shares.as_slice().len() {
        shares.set(arc, raised(own));
    }
}

/// An average use over 2^20, raised by an eighth.
fn raised(own: i64) -> u32
    ensures { result ≤ 2 ^ 20 }
{
    let more = own.wrapping_add(own >> 3);
    more.clamp(0, WHOLE) as u32
}
