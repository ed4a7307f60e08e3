//! The members of a row.

ghost use Rattle.std.specs.Prelude.{◌≡◌, ◌≢◌, ◌⊎◌, ◌≤◌, ◌∷◌, ◌++◌, [], ℕ, ℤ, List, pos, length, map, IfNone, IfSome, true, false};
ghost use Rattle.std.specs.Bool.{OnTrue, OnFalse};
ghost use Rattle.cable_definitions.specs.Numeral.{spelling};
ghost use Rattle.cable_definitions.specs.Items.{IsWithin};
ghost use Rattle.line_words.specs.Words.{held};
ghost use Rattle.line_words.specs.Numbers.{Is};
ghost use Rattle.line_words.specs.Members.{up_to, AreSpelled};
ghost use Rattle.line_words.specs.declared.number.Number.TheVariants.{Small};

use crate::number::{Number, count_in, number_of};
use crate::words::{Words, next_word};
use std::marker::Model;

/// The most members of a row.
const MOST_MEMBERS: usize = 256;

/// A list of at most 256 members of a row. It takes no memory.
#[derive(Drop)]
pub struct MemberList {
    numbers: [u32; 256],
    count: usize,
}

impl Model for MemberList {
    ghost use Rattle.std.specs.Prelude.{◌≤◌, ℕ, List, take};

    ghost Value = { List ℕ };

    ghost view = { λ list. take list.count list.numbers };

    ghost invariant = { λ list. list.count ≤ 256 };
}

impl MemberList {
    ghost use Rattle.std.specs.Prelude.{◌≡◌, ◌<◌, ◌≤◌, ◌↔◌, [], ◌∷◌, ◌++◌, length, IsTrue};
    ghost use Rattle.std.specs.Bool.{OnTrue, OnFalse};

    /// A list of no member.
    pub fn new() -> MemberList
        ensures { result ≡ [] }
    {
        MemberList {
            numbers: [0; 256],
            count: 0,
        }
    }

    /// The members in their order.
    pub fn as_slice(&self) -> &[u32]
        ensures value { result.now ≡ self.now }
        ensures most { length self.now ≤ 256 }
    {
        &self.numbers[..self.count]
    }

    /// Leaves no member.
    pub(crate) fn clear(&mut self)
        ensures { self.new ≡ [] }
    {
        self.count = 0;
    }

    /// Adds a member at the end where there is room, and says whether there was.
    pub(crate) fn push(&mut self, member: u32) -> bool
        ensures room { IsTrue result ↔ (length self.old < 256) }
        ensures added { OnTrue result (self.new ≡ self.old ++ member ∷ []) }
        ensures most { OnTrue result (length self.new ≤ 256) }
        ensures full { OnFalse result (self.new ≡ self.old) }
        ensures at_most { OnFalse result (length self.old ≡ 256) }
    {
        if self.count >= MOST_MEMBERS {
            return false;
        }
        self.numbers[self.count] = member;
        self.count += 1;
        true
    }
}

/// Adds a number where all before it fit, it is from 0 to `most` and there is room; says whether it did.
fn add_member(members: &mut MemberList, fits: bool, number: Number, most: u32) -> bool
    ensures added { OnTrue result ((m : ℕ) × (number ≡ Small (pos m)) × (m ≤ most) × (members.new ≡ members.old ++ m ∷ [])) }
    ensures all_fit { OnTrue result ((fits ≡ true) × (length members.new ≤ 256)) }
    ensures none { OnFalse result ((fits ≡ false) ⊎ ((length members.old ≡ 256) ⊎ ((z : ℤ) → Is number z → ¬ (IsWithin (up_to most z))))) }
{
    if !fits {
        return false;
    }
    match count_in(number, 0, most) {
        Some(member) => members.push(member),
        None => false,
    }
}

/// Whether the numbers that the words spell are at most 256, each from 0 to `most`, and then they are the
/// members; none where a word spells no number.
pub(crate) fn members_in(words: Words, most: u32, members: &mut MemberList) -> Option<bool>
    ensures some { IfSome result (λ fits. AreSpelled (held words.entry) most fits members.new) }
    ensures none { IfNone result ((zs : List ℤ) → held words.entry ≢ map spelling zs) }
{
    members.clear();
    let mut left = words;
    let mut fits = true;
    while let Some((word, rest)) = next_word(left) {
        let Some(number) = number_of(word) else {
            return None;
        };
        fits = add_member(members, fits, number, most);
        left = rest;
    }
    Some(fits)
}
