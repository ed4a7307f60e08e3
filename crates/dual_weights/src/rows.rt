//! The rows that have dual weights, with what the volume method keeps of each.

ghost use Rattle.std.specs.Prelude.{◌<◌, length};

use crate::node::point_number;
use cable_definitions::row::RowKind;
use cable_rows::RowPool;
use node_works::Weights;
use site_model::Site;
use std::alloc::{AllocError, Global};

/// The most rows on sets that have dual weights at once.
const MOST_SETS: u32 = 256;

/// An inlet row of this right side never binds: no point has so many cables into it.
const NO_LIMIT: i64 = -255;

/// The greatest dual weight in absolute value: 2^76.
pub(crate) const MOST_WEIGHT: i128 = 75_557_863_725_914_323_419_136;

/// A row with its dual weight, over 2^20 of a cost unit, and the one that is tried. `place` is the point of a row on one point, or the number of a set
/// among the sets. The gap is by how much the average of the points that were met breaks the row, over 2^16, and `found` by how much the last of them
/// does; of a row on loads it is measured in units of load. A row on the cables out of a turbine has no weight of its own here: its best weight is the
/// least slack of its arcs.
#[derive(Clone, Copy)]
pub(crate) struct DualRow {
    pub(crate) row: u32,
    pub(crate) kind: RowKind,
    pub(crate) place: u8,
    pub(crate) is_equation: bool,
    pub(crate) right: i64,
    pub(crate) weight: i128,
    pub(crate) trial: i128,
    pub(crate) gap: i64,
    pub(crate) found: i64,
}

/// The weight with which each listed row begins, and whether a row on a set has a dual weight.
#[derive(Clone, Copy)]
struct Entry {
    weight: i128,
    is_active: bool,
}

/// Whether rows of a kind count arcs by more than one of their ends.
pub(crate) fn is_on_set(kind: RowKind) -> bool {
    matches!(kind, RowKind::One | RowKind::Cut)
}

/// Whether rows of a kind ask that both their sides are equal.
fn is_equation(kind: RowKind) -> bool {
    matches!(kind, RowKind::Out | RowKind::Flow | RowKind::Bend)
}

/// Whether rows of a kind count loads.
pub(crate) fn is_on_load(kind: RowKind) -> bool {
    matches!(kind, RowKind::Flow | RowKind::Power)
}

/// The entries of the rows with a weight: at most so many rows on sets are active. Answers how many of these there are.
fn enter_weights(entries: &mut [Entry], pool: &RowPool, start: &Weights) -> u32 {
    let mut sets: u32 = 0;
    for (row, weight) in start.as_slice() {
        if *row < pool.len() && enter(entries, *row, *weight, is_on_set(pool.kind(*row)), sets) {
            sets = sets.wrapping_add(1);
        }
    }
    sets
}

/// Enters a row with its weight. Whether it becomes an active row on a set.
fn enter(entries: &mut [Entry], row: u32, weight: i128, is_set: bool, sets: u32) -> bool {
    let Some(entry) = entries.get_mut(row as usize) else {
        return false;
    };
    entry.weight = weight;
    entry.is_active = is_set && sets < MOST_SETS;
    entry.is_active
}

/// Makes the rows on sets that were listed last active too, as long as there is room.
fn enter_latest(entries: &mut [Entry], pool: &RowPool, active: u32) {
    let mut sets = active;
    let count = pool.len();
    for back in 0..count {
        let row = count - 1 - back;
        if sets < MOST_SETS && is_on_set(pool.kind(row)) && activate(entries, row) {
            sets = sets.wrapping_add(1);
        }
    }
}

/// Makes a row active. Whether it wasn't before.
fn activate(entries: &mut [Entry], row: u32) -> bool {
    let Some(entry) = entries.get_mut(row as usize) else {
        return false;
    };
    if entry.is_active {
        return false;
    }
    entry.is_active = true;
    true
}

/// What each row of the pool begins with.
fn entries_of(alloc: Global, pool: &RowPool, start: &Weights) -> Result<Vec<Entry>, AllocError> {
    let none = Entry {
        weight: 0,
        is_active: false,
    };
    let mut entries = vec![in alloc; none; pool.len() as usize]?;
    let active = enter_weights(entries.as_mut_slice(), pool, start);
    enter_latest(entries.as_mut_slice(), pool, active);
    Ok(entries)
}

/// The first member of a row; 0 where it has none.
fn first_member(pool: &RowPool, row: u32) -> u32
    requires { row < length pool.now }
{
    match pool.members(row).first() {
        Some(member) => *member,
        None => 0,
    }
}

/// The place of a row with a dual weight; none where it has none. A set gets the next number.
fn place_of(pool: &RowPool, row: u32, right: i64, is_active: bool, sets: u32) -> Option<u8>
    requires { row < length pool.now }
{
    match pool.kind(row) {
        RowKind::Inlet if right <= NO_LIMIT => None,
        RowKind::One | RowKind::Cut => {
            if is_active {
                Some(point_number(sets))
            } else {
                None
            }
        }
        _ => Some(point_number(first_member(pool, row))),
    }
}

/// The weight with which a row begins here.
fn first_weight(kind: RowKind, weight: i128) -> i128 {
    match kind {
        RowKind::Out => 0,
        _ => weight.clamp(-MOST_WEIGHT, MOST_WEIGHT),
    }
}

/// The rows of the pool that have dual weights, in their order.
///
/// # Errors
///
/// `AllocError` where there is no memory.
pub(crate) fn dual_rows(
    alloc: Global,
    site: &Site,
    pool: &RowPool,
    start: &Weights,
) -> Result<Vec<DualRow>, AllocError> {
    let entries = entries_of(alloc, pool, start)?;
    let mut rows = Vec::new(alloc);
    let mut sets: u32 = 0;
    for row in 0..pool.len() {
        let entry = entry_at(entries.as_slice(), row);
        let kind = pool.kind(row);
        let right = pool.right(site, row);
        let Some(place) = place_of(pool, row, right, entry.is_active, sets) else {
            continue;
        };
        if is_on_set(kind) {
            sets = sets.wrapping_add(1);
        }
        rows.push(dual_row(row, kind, place, right, entry.weight))?;
    }
    Ok(rows)
}

/// The entry of a row.
fn entry_at(entries: &[Entry], row: u32) -> Entry {
    match entries.get(row as usize) {
        Some(entry) => *entry,
        None => Entry {
            weight: 0,
            is_active: false,
        },
    }
}

/// A row that has no gap yet.
fn dual_row(row: u32, kind: RowKind, place: u8, right: i64, weight: i128) -> DualRow {
    let weight = first_weight(kind, weight);
    DualRow {
        row,
        kind,
        place,
        is_equation: is_equation(kind),
        right,
        weight,
        trial: weight,
        gap: 0,
        found: 0,
    }
}
