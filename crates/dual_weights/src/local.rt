//! Turns: the rows of a few points that lie close together, solved exactly as a table of reduced costs.

ghost use Rattle.std.specs.Prelude.{◌≤◌};

use crate::node::{Link, Spot, links_of};
use crate::rows::{DualRow, MOST_WEIGHT};
use crate::steps::Dual;
use bounded_fractions::Fraction;
use cable_definitions::row::RowKind;
use cable_rows::RowPool;
use fraction_simplex::{Answer, FractionList, Table, solve};
use site_model::{Point, Site};
use std::alloc::{AllocError, Global};

/// The most points of a table; each has two rows.
const MOST_POINTS: usize = 6;

/// The most columns of a table that stand for cables.
const MOST_CABLES: usize = 48;

/// The most bits of a cost in a table.
const COST_BITS: u32 = 20;

/// A turbine or a bend, by how much the average breaks its row on loads, negated, and its number.
#[derive(Clone, Copy, PartialEq, Eq, PartialOrd, Ord)]
struct Focus {
    order: i64,
    at: u8,
}

/// A cable of a table: what it leaves of its cost, the place of its link, and its load in power units.
#[derive(Clone, Copy, PartialEq, Eq, PartialOrd, Ord)]
struct Cable {
    reduced: i128,
    place: usize,
    load: i64,
}

/// The numbers of the points of a table, by point.
#[derive(Clone, Copy)]
struct Ranks {
    ranks: [Option<u8>; 256],
    count: u8,
}

/// The points with a row on loads, turbines and bends, in order.
fn focus_points(alloc: Global, rows: &[DualRow], spots: &[Spot]) -> Result<Vec<Focus>, AllocError> {
    let mut points = Vec::new(alloc);
    for row in rows {
        if row.kind == RowKind::Flow && has_out(spots, row.place) {
            points.push(Focus {
                order: 0i64.wrapping_sub(row.gap.wrapping_abs()),
                at: row.place,
            })?;
        }
    }
    points.sort()?;
    Ok(points)
}

/// Whether a link leads out of a point.
fn has_out(spots: &[Spot], point: u8) -> bool {
    match spots.get(point as usize) {
        Some(spot) => spot.first < spot.past,
        None => false,
    }
}

/// The square of the distance of two points in square metres.
fn square_between(points: &[Point], a: u8, b: u8) -> i64 {
    let (Some(a), Some(b)) = (points.get(a as usize), points.get(b as usize)) else {
        return i64::MAX;
    };
    let x = a.at.x.wrapping_sub(b.at.x);
    let y = a.at.y.wrapping_sub(b.at.y);
    x.wrapping_mul(x).wrapping_add(y.wrapping_mul(y))
}

/// The points nearest to one of them.
fn nearest_ranks(
    alloc: Global,
    site: &Site,
    points: &[Focus],
    center: u8,
) -> Result<Ranks, AllocError> {
    let mut near = Vec::new(alloc);
    for point in points {
        near.push(Focus {
            order: square_between(site.points(), center, point.at),
            at: point.at,
        })?;
    }
    near.sort()?;
    let mut ranks = Ranks {
        ranks: [None; 256],
        count: 0,
    };
    for point in near.iter().take(MOST_POINTS) {
        ranks.ranks[point.at as usize] = Some(ranks.count);
        ranks.count = ranks.count.wrapping_add(1);
    }
    Ok(ranks)
}

impl Ranks {
    /// The number of a point in the table.
    fn of(&self, point: u8) -> Option<u8> {
        self.ranks[point as usize]
    }

    /// Whether a link starts or ends in one of the points.
    fn meets(&self, spot: &Spot, link: &Link) -> bool {
        self.of(spot.at).is_some() || self.of(link.to).is_some()
    }
}

/// Writes an entry of a table; the row and the column are two of its own.
fn set_entry(table: &mut Table, row: u32, column: u32, value: i64) {
    if (row as usize) < table.rows() && (column as usize) < table.columns() {
        if let Ok(value) = Fraction::new(value, 1) {
            table.set(row, column, value);
        }
    }
}

/// Writes the right side of a row of a table.
fn set_right(table: &mut Table, row: u32, value: i64) {
    if (row as usize) < table.rows() {
        if let Ok(value) = Fraction::new(value, 1) {
            table.set_right(row, value);
        }
    }
}

/// Writes the cost of a column of a table.
fn set_cost(table: &mut Table, column: u32, value: i64) {
    if (column as usize) < table.columns() {
        if let Ok(value) = Fraction::new(value, 1) {
            table.set_cost(column, value);
        }
    }
}

/// The row of a point's uses in a table; that of its loads is the next.
fn use_row(rank: u8) -> u32
    ensures { result ≤ 510 }
{
    2 * u32::from(rank)
}

/// The least number of bits by which a cost is cut down to those of a table.
fn cut_bits(most: i128) -> u32
    ensures { result ≤ 100 }
{
    let bits = 128 - most.leading_zeros();
    bits.saturating_sub(COST_BITS).min(100)
}

/// A cost cut down by so many bits.
fn cut_down(cost: i128, bits: u32) -> i64
    requires { bits ≤ 100 }
{
    (cost >> bits).clamp(0, 1_048_575) as i64
}

/// The move of a weight by a multiplier, so many eighths of it.
fn move_of(multiplier: Option<&Fraction>, eighths: i128, bits: u32) -> i128
    requires { bits ≤ 100 }
{
    let Some(multiplier) = multiplier else {
        return 0;
    };
    let wide = i128::from(multiplier.num).wrapping_mul(eighths) << bits;
    let way = wide.wrapping_div(i128::from(multiplier.den.max(1)).wrapping_mul(8).max(1));
    way.clamp(-MOST_WEIGHT, MOST_WEIGHT)
}

/// Tries the weight of a row of the table's points, moved by so many eighths of its multiplier.
fn try_row(row: &mut DualRow, ranks: &Ranks, multipliers: &[Fraction], eighths: i128, bits: u32)
    requires { bits ≤ 100 }
{
    row.trial = row.weight;
    let Some(rank) = ranks.of(row.place) else {
        return;
    };
    let place = use_row(rank) as usize;
    let multiplier = match row.kind {
        RowKind::Flow => multipliers.get(place + 1),
        RowKind::Bend => multipliers.get(place),
        _ => None,
    };
    let way = move_of(multiplier, eighths, bits);
    row.trial = row
        .weight
        .wrapping_add(way)
        .clamp(-MOST_WEIGHT, MOST_WEIGHT);
}

impl Dual {
    /// The cables of the links that meet the points: one at the least load, and one at the capacity of each type that bears more.
    fn cables(&self, alloc: Global, ranks: &Ranks) -> Result<Vec<Cable>, AllocError> {
        let mut cables = Vec::new(alloc);
        for spot in &self.node.spots {
            self.add_cables(ranks, spot, &mut cables)?;
        }
        cables.sort()?;
        cables.truncate(MOST_CABLES);
        Ok(cables)
    }

    /// Adds the cables of the links out of a point that meet the points of the table.
    fn add_cables(
        &self,
        ranks: &Ranks,
        spot: &Spot,
        cables: &mut Vec<Cable>,
    ) -> Result<(), AllocError> {
        for (offset, link) in links_of(self.node.links.as_slice(), spot)
            .iter()
            .enumerate()
        {
            if ranks.meets(spot, link) {
                self.add_loads(spot, link, spot.first.wrapping_add(offset), cables)?;
            }
        }
        Ok(())
    }

    /// Adds the cables of a link.
    fn add_loads(
        &self,
        spot: &Spot,
        link: &Link,
        place: usize,
        cables: &mut Vec<Cable>,
    ) -> Result<(), AllocError> {
        let low = if spot.is_turbine && !spot.is_fixed {
            spot.low
        } else {
            0
        };
        let reduced = self.reduced_at(spot, link, link.least_cost, spot.least);
        cables.push(Cable {
            reduced: reduced.wrapping_sub(low),
            place,
            load: spot.least,
        })?;
        for grade in &self.node.grades {
            if grade.capacity > spot.least {
                let cost = link
                    .metres
                    .wrapping_mul(grade.rate)
                    .wrapping_add(link.charge);
                cables.push(Cable {
                    reduced: self
                        .reduced_at(spot, link, cost, grade.capacity)
                        .wrapping_sub(low),
                    place,
                    load: grade.capacity,
                })?;
            }
        }
        Ok(())
    }

    /// A table of the points' rows with these cables and, for each row on loads, two columns that move it either way at the cost of the box.
    fn table(
        &self,
        alloc: Global,
        ranks: &Ranks,
        cables: &[Cable],
        bits: u32,
        reach: i128,
    ) -> Result<Table, AllocError>
        requires { bits ≤ 100 }
    {
        let points = u32::from(ranks.count).min(6);
        let count = cables.len().min(MOST_CABLES) as u32;
        let mut table = Table::new(alloc, 2 * points, count + 2 * points)?;
        for (column, cable) in cables.iter().take(MOST_CABLES).enumerate() {
            self.set_column(&mut table, ranks, column as u32, cable, bits);
        }
        for row in &self.rows {
            set_sides(&mut table, ranks, row, count, cut_down(reach, bits).max(1));
        }
        Ok(table)
    }

    /// Writes the column of a cable.
    fn set_column(&self, table: &mut Table, ranks: &Ranks, column: u32, cable: &Cable, bits: u32)
        requires { bits ≤ 100 }
    {
        let Some(link) = self.node.links.get(cable.place) else {
            return;
        };
        set_cost(table, column, cut_down(cable.reduced, bits));
        for spot in &self.node.spots {
            if spot.first <= cable.place && cable.place < spot.past {
                set_start(table, ranks.of(spot.at), column, cable.load);
            }
        }
        if let (Some(rank), Some(end)) = (
            ranks.of(link.to),
            self.node.spots.get(link.to as usize),
        ) {
            if !end.is_turbine {
                set_entry(table, use_row(rank), column, -1);
            }
            set_entry(
                table,
                use_row(rank) + 1,
                column,
                0i64.wrapping_sub(cable.load),
            );
        }
    }

    /// Solves the rows of the points nearest to one of them, and keeps the weights moved by the multipliers where their value is greater. Answers the value
    /// of the weights that are kept.
    fn turn(
        &mut self,
        alloc: Global,
        site: &Site,
        pool: &RowPool,
        points: &[Focus],
        center: u8,
        value: i128,
        reach: i128,
    ) -> Result<i128, AllocError> {
        let ranks = nearest_ranks(alloc, site, points, center)?;
        self.try_kept();
        self.value(pool);
        let cables = self.cables(alloc, &ranks)?;
        let most = most_reduced(cables.as_slice()).max(reach);
        let bits = cut_bits(most);
        let table = self.table(alloc, &ranks, cables.as_slice(), bits, reach)?;
        let Some(multipliers) = multipliers_of(alloc, &table) else {
            return Ok(value);
        };
        Ok(self.follow(pool, &ranks, multipliers.as_slice(), bits, value))
    }

    /// Keeps the weights moved by the first of 8, 4, 2 and 1 eighths of the multipliers that raises the value.
    fn follow(
        &mut self,
        pool: &RowPool,
        ranks: &Ranks,
        multipliers: &[Fraction],
        bits: u32,
        value: i128,
    ) -> i128
        requires { bits ≤ 100 }
    {
        for eighths in [8i128, 4, 2, 1] {
            for row in &mut self.rows {
                try_row(row, ranks, multipliers, eighths, bits);
            }
            let tried = self.value(pool);
            if tried > value {
                self.keep();
                return tried;
            }
        }
        value
    }

    /// So many turns, each round another of the points with a row on loads, in the order of their gaps.
    ///
    /// # Errors
    ///
    /// `AllocError` where there is no memory.
    pub(crate) fn turn_all(
        &mut self,
        alloc: Global,
        site: &Site,
        pool: &RowPool,
        first: i128,
        turns: u32,
    ) -> Result<(), AllocError> {
        let points = focus_points(alloc, self.rows.as_slice(), self.node.spots.as_slice())?;
        if points.is_empty() {
            return Ok(());
        }
        let mut reach = (most_flow(self.rows.as_slice()) / 16).max(1);
        let mut value = first;
        for turn in 0..turns {
            let center = points[turn as usize % points.len()].at;
            let next = self.turn(alloc, site, pool, points.as_slice(), center, value, reach)?;
            if next <= value {
                reach = (reach / 2).max(1);
            }
            value = next;
        }
        Ok(())
    }
}

/// The multipliers of a table's cheapest point; none where the table isn't solved or has no cheapest point.
fn multipliers_of(alloc: Global, table: &Table) -> Option<FractionList> {
    match solve(alloc, table) {
        Ok(answer) => optimal_multipliers(answer),
        Err(_) => None,
    }
}

/// The multipliers of an optimal answer.
fn optimal_multipliers(answer: Answer) -> Option<FractionList> {
    match answer {
        Answer::Optimal {
            point: _point,
            multipliers,
        } => Some(multipliers),
        Answer::Infeasible { ray: _ray } => None,
        Answer::Unbounded {
            point: _point,
            ray: _ray,
        } => None,
    }
}

/// Writes what a cable counts at its start.
fn set_start(table: &mut Table, rank: Option<u8>, column: u32, load: i64) {
    if let Some(rank) = rank {
        set_entry(table, use_row(rank), column, 1);
        set_entry(table, use_row(rank) + 1, column, load);
    }
}

/// Writes the right side of a row of one of the points, and of a row on loads its two columns.
fn set_sides(table: &mut Table, ranks: &Ranks, row: &DualRow, cables: u32, cost: i64) {
    let Some(rank) = ranks.of(row.place) else {
        return;
    };
    let own = use_row(rank);
    match row.kind {
        RowKind::Out => set_right(table, own, 1),
        RowKind::Flow => {
            set_right(table, own + 1, row.right);
            let column = cables.wrapping_add(own);
            set_entry(table, own + 1, column, 1);
            set_entry(table, own + 1, column.wrapping_add(1), -1);
            set_cost(table, column, cost);
            set_cost(table, column.wrapping_add(1), cost);
        }
        _ => {}
    }
}

/// The greatest absolute value of what some cables leave of their costs.
fn most_reduced(cables: &[Cable]) -> i128 {
    let mut most: i128 = 1;
    for cable in cables {
        most = most.max(cable.reduced.wrapping_abs());
    }
    most
}

/// The greatest absolute weight of a row on loads.
fn most_flow(rows: &[DualRow]) -> i128 {
    let mut most: i128 = 0;
    for row in rows {
        if row.kind == RowKind::Flow {
            most = most.max(row.weight.wrapping_abs());
        }
    }
    most
}
