//! The points near a point, by what a cable to them costs.

use crate::farm::{Farm, Role};
use crate::points::PointLists;
use crate::segments::Segments;
use candidate_cables::{Arc, Arcs};
use std::alloc::{AllocError, Global};

/// A point to which a candidate arc leads.
#[derive(Clone, Copy)]
pub(crate) struct Choice {
    point: u8,
    /// The cost of a cable there at the largest capacity, in cost units.
    pub(crate) cost: i64,
    metres: i64,
    charge: i64,
}

/// The choice of an arc.
fn choice_of(arc: Arc, point: u8, price: i64) -> Choice {
    let metres = arc.length as i64;
    let charge = i64::try_from(arc.charge).unwrap_or(i64::MAX);
    Choice {
        point,
        cost: metres.wrapping_mul(price).wrapping_add(charge),
        metres,
        charge,
    }
}

/// The points of a role to which candidate arcs lead from a point: so many of them, the cheapest first.
pub(crate) fn nearest(
    alloc: Global,
    farm: &Farm,
    arcs: &Arcs,
    p: u8,
    role: Role,
    most: usize,
) -> Result<Vec<Choice>, AllocError> {
    let mut choices = Vec::new(alloc);
    let price = farm.full_price();
    let (first, past) = arcs.out_of(p as u32);
    for number in first..past {
        if let Some(arc) = arcs.as_slice().get(number as usize) {
            if let Ok(q) = u8::try_from(arc.to) {
                if farm.role(q) == role {
                    choices.push(choice_of(*arc, q, price))?;
                }
            }
        }
    }
    choices.sort_unstable_by_key(|choice| (choice.cost, choice.point));
    choices.truncate(most);
    Ok(choices)
}

/// Adds choices to the list that is made, and numbers the segments to them.
pub(crate) fn list_choices(
    lists: &mut PointLists,
    segments: &mut Segments,
    p: u8,
    choices: &[Choice],
) -> Result<(), AllocError> {
    for choice in choices {
        lists.push(choice.point)?;
        segments.add(p, choice.point, choice.metres, choice.charge)?;
    }
    Ok(())
}
