//! What a line of a site says.

ghost use Rattle.std.specs.Prelude.{◌∷◌, codes};
ghost use Rattle.std.specs.Option.{option_copied};
ghost use Rattle.cable_definitions.specs.declared.site.Version.{Version as AnyVersion};
ghost use Rattle.cable_definitions.specs.Text.{HasNoNewline};
ghost use Rattle.site_text.specs.Keyword.{keyword_text};
ghost use Rattle.cable_text.specs.Words.{rest_parts};
ghost use Rattle.site_text.specs.Item.{ReadsAs, NamesModeOf, IsSaid, IsItemOfLine};

use crate::keyword::{Keyword, keyword_of};
use crate::words::{five_words, four_words, one_word, three_words, two_words};
use cable_text::{NumberFault, cut, is_word, read_number};
use site_model::{Mode, Version};

/// What stands at a point, with its numbers; a number is none where its word spells none, and the
/// greatest of its type where it is beyond it.
#[derive(Clone, Copy)]
pub enum ItemKind {
    Turbine(Option<i128>),
    Substation(Option<i128>, Option<i128>),
    Bend,
}

/// What is ruled of a pair.
#[derive(Clone, Copy)]
pub enum ItemRule {
    Charge(Option<i128>),
    Closing,
}

/// What a line of a site says; a line that says nothing is stray.
#[derive(Clone, Copy)]
pub enum Item<'a> {
    Version(Option<i128>),
    Mode(Option<Mode>),
    CableType {
        capacity: Option<i128>,
        price: Option<i128>,
        loss: Option<i128>,
    },
    Point {
        name: &'a [u8],
        x: Option<i128>,
        y: Option<i128>,
        kind: ItemKind,
    },
    Obstacle(Option<i128>),
    Corner {
        x: Option<i128>,
        y: Option<i128>,
    },
    Pair {
        a: &'a [u8],
        b: &'a [u8],
        rule: ItemRule,
    },
    End,
    Stray,
}

/// The item of a line's text in this version.
pub fn item_of(version: Version, text: &[u8]) -> Item
    requires { HasNoNewline text.now }
    ensures { IsItemOfLine version text.now result }
{
    let (word, rest) = cut(text);
    match keyword_of(word) {
        Some(keyword) => item_after(version, keyword, rest),
        None => Item::Stray,
    }
}

/// The item of a keyword and the words that follow it.
fn item_after<'a>(version: Version, keyword: Keyword, rest: Option<&'a [u8]>) -> Item<'a>
    ensures { IsSaid version (keyword_text keyword ∷ rest_parts (option_copied rest.entry)) result }
{
    match keyword {
        Keyword::Site => version_item(rest),
        Keyword::Mode => mode_item(rest),
        Keyword::CableType => type_item(version, rest),
        Keyword::Substation => substation_item(rest),
        Keyword::Turbine => turbine_item(rest),
        Keyword::Bend => bend_item(rest),
        Keyword::Obstacle => obstacle_item(rest),
        Keyword::Corner => corner_item(rest),
        Keyword::Charge => charge_item(rest),
        Keyword::Closed => closed_item(rest),
        Keyword::End => end_item(rest),
    }
}

/// The number that a word spells.
fn number_of(word: &[u8]) -> Option<i128>
    ensures { ReadsAs word.now result }
{
    match read_number(word, i128::MIN, i128::MAX) {
        Ok(value) => Some(value),
        Err(NumberFault::NotDecimal) => None,
        Err(NumberFault::Over) => Some(i128::MAX),
    }
}

/// The mode that a word names.
fn mode_of(word: &[u8]) -> Option<Mode>
    ensures { NamesModeOf word.now result }
{
    if is_word(word, b"tree") {
        return Some(Mode::Tree);
    }
    if is_word(word, b"strings") {
        return Some(Mode::Strings);
    }
    None
}

/// What follows the word `site`.
fn version_item<'a>(rest: Option<&'a [u8]>) -> Item<'a>
    ensures { (version : AnyVersion) → IsSaid version (codes "site" ∷ rest_parts (option_copied rest.entry)) result }
{
    match one_word(rest) {
        Some(word) => Item::Version(number_of(word)),
        None => Item::Stray,
    }
}

/// What follows the word `mode`.
fn mode_item<'a>(rest: Option<&'a [u8]>) -> Item<'a>
    ensures { (version : AnyVersion) → IsSaid version (codes "mode" ∷ rest_parts (option_copied rest.entry)) result }
{
    match one_word(rest) {
        Some(word) => Item::Mode(mode_of(word)),
        None => Item::Stray,
    }
}

/// What follows the word `type`.
fn type_item<'a>(version: Version, rest: Option<&'a [u8]>) -> Item<'a>
    ensures { IsSaid version (codes "type" ∷ rest_parts (option_copied rest.entry)) result }
{
    match version {
        Version::One => plain_type_item(rest),
        Version::Two => lossy_type_item(rest),
    }
}

/// What follows the word `type` in version 1.
fn plain_type_item<'a>(rest: Option<&'a [u8]>) -> Item<'a>
    ensures { IsSaid Version.One (codes "type" ∷ rest_parts (option_copied rest.entry)) result }
{
    match two_words(rest) {
        Some((capacity, price)) => Item::CableType {
            capacity: number_of(capacity),
            price: number_of(price),
            loss: Some(0),
        },
        None => Item::Stray,
    }
}

/// What follows the word `type` in version 2.
fn lossy_type_item<'a>(rest: Option<&'a [u8]>) -> Item<'a>
    ensures { IsSaid Version.Two (codes "type" ∷ rest_parts (option_copied rest.entry)) result }
{
    match three_words(rest) {
        Some((capacity, price, loss)) => Item::CableType {
            capacity: number_of(capacity),
            price: number_of(price),
            loss: number_of(loss),
        },
        None => Item::Stray,
    }
}

/// What follows the word `substation`.
fn substation_item<'a>(rest: Option<&'a [u8]>) -> Item<'a>
    ensures { (version : AnyVersion) → IsSaid version (codes "substation" ∷ rest_parts (option_copied rest.entry)) result }
{
    match five_words(rest) {
        Some((name, x, y, feeders, power)) => Item::Point {
            name,
            x: number_of(x),
            y: number_of(y),
            kind: ItemKind::Substation(number_of(feeders), number_of(power)),
        },
        None => Item::Stray,
    }
}

/// What follows the word `turbine`.
fn turbine_item<'a>(rest: Option<&'a [u8]>) -> Item<'a>
    ensures { (version : AnyVersion) → IsSaid version (codes "turbine" ∷ rest_parts (option_copied rest.entry)) result }
{
    match four_words(rest) {
        Some((name, x, y, power)) => Item::Point {
            name,
            x: number_of(x),
            y: number_of(y),
            kind: ItemKind::Turbine(number_of(power)),
        },
        None => Item::Stray,
    }
}

/// What follows the word `bend`.
fn bend_item<'a>(rest: Option<&'a [u8]>) -> Item<'a>
    ensures { (version : AnyVersion) → IsSaid version (codes "bend" ∷ rest_parts (option_copied rest.entry)) result }
{
    match three_words(rest) {
        Some((name, x, y)) => Item::Point {
            name,
            x: number_of(x),
            y: number_of(y),
            kind: ItemKind::Bend,
        },
        None => Item::Stray,
    }
}

/// What follows the word `obstacle`.
fn obstacle_item<'a>(rest: Option<&'a [u8]>) -> Item<'a>
    ensures { (version : AnyVersion) → IsSaid version (codes "obstacle" ∷ rest_parts (option_copied rest.entry)) result }
{
    match one_word(rest) {
        Some(word) => Item::Obstacle(number_of(word)),
        None => Item::Stray,
    }
}

/// What follows the word `corner`.
fn corner_item<'a>(rest: Option<&'a [u8]>) -> Item<'a>
    ensures { (version : AnyVersion) → IsSaid version (codes "corner" ∷ rest_parts (option_copied rest.entry)) result }
{
    match two_words(rest) {
        Some((x, y)) => Item::Corner {
            x: number_of(x),
            y: number_of(y),
        },
        None => Item::Stray,
    }
}

/// What follows the word `charge`.
fn charge_item<'a>(rest: Option<&'a [u8]>) -> Item<'a>
    ensures { (version : AnyVersion) → IsSaid version (codes "charge" ∷ rest_parts (option_copied rest.entry)) result }
{
    match three_words(rest) {
        Some((a, b, amount)) => Item::Pair {
            a,
            b,
            rule: ItemRule::Charge(number_of(amount)),
        },
        None => Item::Stray,
    }
}

/// What follows the word `closed`.
fn closed_item<'a>(rest: Option<&'a [u8]>) -> Item<'a>
    ensures { (version : AnyVersion) → IsSaid version (codes "closed" ∷ rest_parts (option_copied rest.entry)) result }
{
    match two_words(rest) {
        Some((a, b)) => Item::Pair {
            a,
            b,
            rule: ItemRule::Closing,
        },
        None => Item::Stray,
    }
}

/// What follows the word `end`.
fn end_item<'a>(rest: Option<&'a [u8]>) -> Item<'a>
    ensures { (version : AnyVersion) → IsSaid version (codes "end" ∷ rest_parts (option_copied rest.entry)) result }
{
    let Some(word) = one_word(rest) else {
        return Item::Stray;
    };
    if is_word(word, b"site") {
        Item::End
    } else {
        Item::Stray
    }
}
