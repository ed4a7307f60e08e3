//! What the lines behind the mode say, given to the builder of a site.

ghost use Rattle.std.specs.Prelude.{◌≡◌, ◌≢◌, ◌-◌, ◌^◌, ◌≤◌, ◌≤ℤ◌, pos, negsuc, ◌↔◌, ◌∷◌, [], All, IsSome, IsTrue, Ok, Err};
ghost use Rattle.cable_definitions.specs.declared.site.SiteCode.{SiteCode as AnyCode};
ghost use Rattle.cable_definitions.specs.Items.{AType, APoint, AnObstacle, ACorner, APair, TheEnd, IsItemOf};
ghost use Rattle.cable_definitions.specs.Text.{HasNoNewline, Whole};
ghost use Rattle.site_model.specs.Drafts.{FitsVersion};
ghost use Rattle.site_text.specs.Item.{item_held, kind_held, rule_held};
ghost use Rattle.site_text.specs.Adding.{told, loss_for, answer_of, Answers, TextAdds, TextBreaks};

use crate::item::{Item, ItemKind, ItemRule, item_of};
use site_model::{BuildFault, RawKind, SiteBuilder, SiteCode, Version};

/// What became of a line that is good: its item was added, or it was the last line of the site.
#[derive(Clone, Copy, Debug, PartialEq, Eq)]
pub enum Progress {
    Added,
    Ended,
}

/// Gives the builder what the text of a line behind the mode says.
///
/// # Errors
///
/// `Refused` with the first code that the line breaks, or `Memory` where there is none for its item.
pub fn add_text(
    builder: &mut SiteBuilder,
    version: Version,
    text: &[u8],
) -> Result<Progress, BuildFault>
    requires plain { HasNoNewline text.now }
    requires version { version ≡ builder.old.site.version }
    requires begun { 2 ≤ builder.old.stage }
    ensures added { result ≡ Ok Progress.Added → TextAdds builder.old text.now builder.new }
    ensures ended { result ≡ Ok Progress.Ended → IsItemOf version (Whole text.now) TheEnd }
    ensures unchanged { result ≡ Ok Progress.Ended → builder.new ≡ builder.old }
    ensures refused { (code : AnyCode) → result ≡ Err (BuildFault.Refused code) → TextBreaks builder.old text.now code }
{
    match item_of(version, text) {
        Item::End => Ok(Progress::Ended),
        item => add_item(builder, version, item),
    }
}

/// Gives the builder an item that is not the end.
fn add_item(builder: &mut SiteBuilder, version: Version, item: Item) -> Result<Progress, BuildFault>
    requires other { item_held item ≢ TheEnd }
    requires version { version ≡ builder.old.site.version }
    requires begun { 2 ≤ builder.old.stage }
    requires loss { FitsVersion builder.old (item_held item) }
    ensures { Answers result builder.old (item_held item.entry) builder.new }
{
    match item {
        Item::CableType {
            capacity,
            price,
            loss,
        } => add_type(builder, version, capacity, price, loss),
        Item::Point { name, x, y, kind } => add_point(builder, name, x, y, kind),
        Item::Obstacle(corners) => add_obstacle(builder, corners),
        Item::Corner { x, y } => add_corner(builder, x, y),
        Item::Pair { a, b, rule } => add_pair(builder, a, b, rule),
        Item::Version(_) | Item::Mode(_) | Item::End | Item::Stray => {
            Err(BuildFault::Refused(SiteCode::Form))
        }
    }
}

/// The number that the builder is told. In the place of a word that spells none it is one beyond
/// every range, so that the builder finds what comes before the shape of an item.
fn told(number: Option<i128>) -> i128
    ensures value { result ≡ told number }
    ensures least { negsuc (2 ^ 127 - 1) ≤ℤ result }
    ensures most { result ≤ℤ pos (2 ^ 127 - 1) }
{
    match number {
        Some(value) => value,
        None => i128::MAX,
    }
}

/// The loss that the builder is told, which takes none in version 1.
fn loss_for(version: Version, loss: Option<i128>) -> Option<i128>
    ensures { result ≡ loss_for version loss }
{
    match version {
        Version::One => None,
        Version::Two => Some(told(loss)),
    }
}

/// Whether each word spells a number.
fn are_spelled(numbers: &[Option<i128>]) -> bool
    ensures { IsTrue result ↔ All IsSome numbers.now }
{
    for number in numbers {
        if number.is_none() {
            return false;
        }
    }
    true
}

/// What the builder answers of an item whose numbers may not all be spelled.
fn answer(outcome: Result<(), BuildFault>, is_spelled: bool) -> Result<Progress, BuildFault>
    ensures { result ≡ answer_of outcome is_spelled }
{
    match outcome {
        Ok(()) => Ok(Progress::Added),
        Err(BuildFault::Refused(SiteCode::Range)) if !is_spelled => {
            Err(BuildFault::Refused(SiteCode::Shape))
        }
        Err(fault) => Err(fault),
    }
}

/// Gives the builder a cable type.
fn add_type(
    builder: &mut SiteBuilder,
    version: Version,
    capacity: Option<i128>,
    price: Option<i128>,
    loss: Option<i128>,
) -> Result<Progress, BuildFault>
    requires version { version ≡ builder.old.site.version }
    requires loss { FitsVersion builder.old (AType capacity price loss) }
    ensures { Answers result builder.old (AType capacity price loss) builder.new }
{
    let outcome = builder.add_type(told(capacity), told(price), loss_for(version, loss));
    answer(outcome, are_spelled(&[capacity, price, loss]))
}

/// Gives the builder a point.
fn add_point(
    builder: &mut SiteBuilder,
    name: &[u8],
    x: Option<i128>,
    y: Option<i128>,
    kind: ItemKind,
) -> Result<Progress, BuildFault>
    ensures { Answers result builder.old (APoint name.now x y (kind_held kind)) builder.new }
{
    match kind {
        ItemKind::Turbine(power) => {
            let kind = RawKind::Turbine(told(power));
            let outcome = builder.add_point(name, told(x), told(y), kind);
            answer(outcome, are_spelled(&[x, y, power]))
        }
        ItemKind::Substation(feeders, power) => {
            let kind = RawKind::Substation(told(feeders), told(power));
            let outcome = builder.add_point(name, told(x), told(y), kind);
            answer(outcome, are_spelled(&[x, y, feeders, power]))
        }
        ItemKind::Bend => {
            let outcome = builder.add_point(name, told(x), told(y), RawKind::Bend);
            answer(outcome, are_spelled(&[x, y]))
        }
    }
}

/// Begins an obstacle.
fn add_obstacle(builder: &mut SiteBuilder, corners: Option<i128>) -> Result<Progress, BuildFault>
    ensures { Answers result builder.old (AnObstacle corners) builder.new }
{
    let outcome = builder.add_obstacle(told(corners));
    answer(outcome, are_spelled(&[corners]))
}

/// Gives the builder a corner.
fn add_corner(
    builder: &mut SiteBuilder,
    x: Option<i128>,
    y: Option<i128>,
) -> Result<Progress, BuildFault>
    ensures { Answers result builder.old (ACorner x y) builder.new }
{
    let outcome = builder.add_corner(told(x), told(y));
    answer(outcome, are_spelled(&[x, y]))
}

/// Gives the builder a pair rule.
fn add_pair(
    builder: &mut SiteBuilder,
    a: &[u8],
    b: &[u8],
    rule: ItemRule,
) -> Result<Progress, BuildFault>
    ensures { Answers result builder.old (APair a.now b.now (rule_held rule)) builder.new }
{
    match rule {
        ItemRule::Charge(amount) => {
            let outcome = builder.add_pair(a, b, Some(told(amount)));
            answer(outcome, are_spelled(&[amount]))
        }
        ItemRule::Closing => {
            let outcome = builder.add_pair(a, b, None);
            answer(outcome, true)
        }
    }
}
