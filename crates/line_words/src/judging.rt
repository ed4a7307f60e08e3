//! What the words of a line say, with their numbers within the limits.

ghost use Rattle.std.specs.Prelude.{◌≡◌, ◌≤◌, ℕ, suc, ℤ, List, pos, All, IfNone, IfSome, IfOk, IfErr};
ghost use Rattle.cable_definitions.specs.Command.{IsBudget};
ghost use Rattle.cable_definitions.specs.Items.{IsWithin, within};
ghost use Rattle.cable_definitions.specs.Refusal.{RawAct, RawClaim, act_from, act_fields, claim_fields, AtBudget, AtItem, AtWeights, AtJudged, AtLast, AtCables, BudgetLine, WeightLine, LayoutLine, ActLine, ClaimLine, EndLine};
ghost use Rattle.line_words.specs.Words.{held};
ghost use Rattle.line_words.specs.Numbers.{Is};
ghost use Rattle.line_words.specs.Said.{IsAct, IsClaim};
ghost use Rattle.line_words.specs.Judged.{IsGoodLine, IsBad, item_line, verdict_of};

use crate::members::MemberList;
use crate::number::{count_in, sum_in, weight_of};
use crate::row::row_in;
use crate::said::{SaidAct, SaidClaim, act_said, claim_said, number_after, numbers_after};
use crate::words::{Words, are_two};
use cable_definitions::claim::Cause;
use cable_definitions::row::{Act, RowKind, Why};

/// The greatest number of a point.
pub(crate) const LAST_POINT: u32 = 255;

/// The greatest number of an arc.
pub(crate) const LAST_ARC: u32 = 65_279;

/// The greatest number of a row.
const LAST_ROW: u32 = 16_383;

/// The most weights of a work.
const MOST_WEIGHTS: u32 = 1024;

/// A line that may stand where an item may: a row by its kind, a work by its node and its number of
/// weights, or the layout by its number of cables.
#[derive(Clone, Copy)]
pub enum ItemLine {
    Row(RowKind),
    Work(u32, u32),
    Layout(u32),
}

/// A verdict with its numbers within their limits; one of a part that can't be joined further names a
/// turbine by its name.
#[derive(Clone, Copy)]
pub enum NamedClaim<'a> {
    Optimal(u64),
    Gap { cost: u64, bound: u64 },
    Open { bound: u64, stuck: &'a [u8] },
    Infeasible,
}

/// The budget of the line `budget N`; `Form` where the line is another, `Limit` where N is out of
/// range.
pub fn budget_in(words: Words) -> Result<u32, Cause>
    ensures good { IfOk result (λ n. IsGoodLine AtBudget (held words.entry) (BudgetLine (pos n))) }
    ensures range { IfOk result (λ n. IsBudget n) }
    ensures bad { IfErr result (λ cause. IsBad AtBudget (held words.entry) cause) }
{
    let Some(number) = number_after(words, b"budget") else {
        return Err(Cause::Form);
    };
    match count_in(number, 1, 50_000) {
        Some(budget) => Ok(budget),
        None => Err(Cause::Limit),
    }
}

/// The number of cables of the line `layout K`, where it alone may stand; `Form` where the line is
/// another, `Limit` where K is out of range.
pub fn layout_in(words: Words) -> Result<u32, Cause>
    ensures good { IfOk result (λ k. IsGoodLine AtJudged (held words.entry) (LayoutLine (pos k))) }
    ensures range { IfOk result (λ k. k ≤ 256) }
    ensures bad { IfErr result (λ cause. IsBad AtJudged (held words.entry) cause) }
{
    let Some(number) = number_after(words, b"layout") else {
        return Err(Cause::Form);
    };
    match count_in(number, 0, 256) {
        Some(count) => Ok(count),
        None => Err(Cause::Limit),
    }
}

/// The row, the work or the layout of a line; `members` holds the members of a row then.
///
/// # Errors
///
/// `Form` where the line is another, `Limit` where a number is out of range or a row has more than 256
/// members. What `members` holds then is left open.
pub fn item_in(words: Words, members: &mut MemberList) -> Result<ItemLine, Cause>
    ensures good { IfOk result (λ item. IsGoodLine AtItem (held words.entry) (item_line item members.new)) }
    ensures bad { IfErr result (λ cause. IsBad AtItem (held words.entry) cause) }
{
    match row_in(words, members) {
        Ok(Some(kind)) => return Ok(ItemLine::Row(kind)),
        Ok(None) => {}
        Err(cause) => return Err(cause),
    }
    if let Some((node, weights)) = numbers_after(words, b"work") {
        let Some(node) = count_in(node, 1, 100_001) else {
            return Err(Cause::Limit);
        };
        return match count_in(weights, 0, MOST_WEIGHTS) {
            Some(count) => Ok(ItemLine::Work(node, count)),
            None => Err(Cause::Limit),
        };
    }
    if let Some(count) = number_after(words, b"layout") {
        return match count_in(count, 0, 256) {
            Some(count) => Ok(ItemLine::Layout(count)),
            None => Err(Cause::Limit),
        };
    }
    Err(Cause::Form)
}

/// The row and the weight of the line `by ROW WEIGHT`, where a weight is to come; `Form` where the
/// line is another, `Limit` where a number is out of range.
pub fn weight_in(words: Words) -> Result<(u32, i128), Cause>
    ensures good { IfOk result (λ weight. (v k : ℕ) (weights : List (ℕ × ℤ)) → IsGoodLine (AtWeights v (suc k) weights) (held words.entry) (WeightLine (pos weight.0) weight.1)) }
    ensures bad { IfErr result (λ cause. (v k : ℕ) (weights : List (ℕ × ℤ)) → IsBad (AtWeights v (suc k) weights) (held words.entry) cause) }
{
    let Some((row, weight)) = numbers_after(words, b"by") else {
        return Err(Cause::Form);
    };
    let Some(row) = count_in(row, 0, LAST_ROW) else {
        return Err(Cause::Limit);
    };
    match weight_of(weight) {
        Some(weight) => Ok((row, weight)),
        None => Err(Cause::Limit),
    }
}

/// The act with its numbers; none where one is out of range.
fn act_within(act: SaidAct) -> Option<Act>
    ensures some { IfSome result (λ a. (raw : RawAct) → IsAct act raw → (act_from raw ≡ a) × All IsWithin (act_fields raw)) }
    ensures none { IfNone result ((raw : RawAct) → IsAct act raw → ¬ (All IsWithin (act_fields raw))) }
{
    match act {
        SaidAct::Split(arc) => Some(Act::Split(count_in(arc, 0, LAST_ARC)?)),
        SaidAct::Stop => Some(Act::Stop),
        SaidAct::Full => Some(Act::Full),
        SaidAct::Row(row) => Some(Act::Dead(Why::Row(count_in(row, 0, LAST_ROW)?))),
        SaidAct::Pair(a, b) => {
            let first = count_in(a, 0, LAST_ARC)?;
            let second = count_in(b, 0, LAST_ARC)?;
            Some(Act::Dead(Why::Pair(first, second)))
        }
        SaidAct::Load(point) => Some(Act::Dead(Why::Load(count_in(point, 0, LAST_POINT)?))),
        SaidAct::Loop(point) => Some(Act::Dead(Why::Loop(count_in(point, 0, LAST_POINT)?))),
        SaidAct::Power(point) => Some(Act::Dead(Why::Power(count_in(point, 0, LAST_POINT)?))),
        SaidAct::Ceiling => Some(Act::Dead(Why::Ceiling)),
    }
}

/// The act of a line; `Form` where the line is another, `Limit` where a number is out of range.
pub fn act_in(words: Words) -> Result<Act, Cause>
    ensures good { IfOk result (λ a. (raw : RawAct) × (act_from raw ≡ a)
        × ((v : ℕ) (weights : List (ℕ × ℤ)) → IsGoodLine (AtWeights v 0 weights) (held words.entry) (ActLine raw))) }
    ensures bad { IfErr result (λ cause. (v : ℕ) (weights : List (ℕ × ℤ)) → IsBad (AtWeights v 0 weights) (held words.entry) cause) }
{
    let Some(act) = act_said(words) else {
        return Err(Cause::Form);
    };
    match act_within(act) {
        Some(act) => Ok(act),
        None => Err(Cause::Limit),
    }
}

/// The verdict with its numbers; none where one is out of range.
fn claim_within(claim: SaidClaim<'_>) -> Option<NamedClaim<'_>>
    ensures some { IfSome result (λ c. (raw : RawClaim) → IsClaim claim.entry raw → (raw ≡ verdict_of c) × All IsWithin (claim_fields raw)) }
    ensures none { IfNone result ((raw : RawClaim) → IsClaim claim.entry raw → ¬ (All IsWithin (claim_fields raw))) }
{
    match claim {
        SaidClaim::Optimal(cost) => Some(NamedClaim::Optimal(sum_in(cost)?)),
        SaidClaim::Gap(cost, bound) => {
            let cost = sum_in(cost)?;
            let bound = sum_in(bound)?;
            Some(NamedClaim::Gap { cost, bound })
        }
        SaidClaim::Open(bound, stuck) => {
            let bound = sum_in(bound)?;
            Some(NamedClaim::Open { bound, stuck })
        }
        SaidClaim::Infeasible => Some(NamedClaim::Infeasible),
    }
}

/// The verdict of a line; `Form` where the line is another, `Limit` where a number is out of range.
pub fn claim_in(words: Words<'_>) -> Result<NamedClaim<'_>, Cause>
    ensures good { IfOk result (λ c. IsGoodLine (AtCables 0) (held words.entry) (ClaimLine (verdict_of c))) }
    ensures bad { IfErr result (λ cause. IsBad (AtCables 0) (held words.entry) cause) }
{
    let Some(claim) = claim_said(words) else {
        return Err(Cause::Form);
    };
    match claim_within(claim) {
        Some(claim) => Ok(claim),
        None => Err(Cause::Limit),
    }
}

/// Looks for the words `end document`; `Form` where the line is another.
pub fn end_in(words: Words) -> Result<(), Cause>
    ensures good { IfOk result (λ _. IsGoodLine AtLast (held words.entry) EndLine) }
    ensures bad { IfErr result (λ cause. IsBad AtLast (held words.entry) cause) }
{
    if are_two(words, b"end", b"document") {
        return Ok(());
    }
    Err(Cause::Form)
}
