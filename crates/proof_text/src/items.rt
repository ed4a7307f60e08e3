//! The budget and the items of a document.

ghost use Rattle.std.specs.Prelude.{◌≡◌, ◌≤◌, ◌<◌, ◌+◌, ◌∷◌, ◌++◌, [], List, suc, pos, codes, length, map, Some, None, Err, OnOk, IfOk, IfSome, IfNone, ℕ, ℤ};
ghost use Rattle.std.specs.Fmt.{decimal};
ghost use Rattle.cable_definitions.specs.Site.{Site as SiteValue};
ghost use Rattle.cable_definitions.specs.Command.{IsBudget};
ghost use Rattle.cable_definitions.specs.Text.{line};
ghost use Rattle.cable_definitions.specs.Refusal.{Reader, BudgetLine, AtBudget, AtItem, AtWeights, RawAct, ActLine, act_from};
ghost use Rattle.cable_definitions.specs.Stream.{FaultsRose, FaultsOnlyRise, GivesFront};
ghost use Rattle.cable_text.specs.Lines.{ahead};
ghost use Rattle.proof_text.specs.Items.{ReadsItemLine, ReadsWeight, ReadsWeights, ReadsAct, ReadsRest, ReadsNext, kept_after};
ghost use Rattle.proof_text.specs.Reading.{line_number_after, ReadsTo, ReadsDocLine, RefusedAfter, IfRefused, IfRead, IsAt, AwaitsWeight, AwaitsAct, ReadsOneLine};

use crate::fault::ItemFault;
use crate::reading::{next_line, refused};
use cable_definitions::row::{Act, RowKind};
use cable_text::{Lines, Source};
use line_words::{ItemLine, MemberList, act_in, budget_in, item_in, weight_in, words_of};
use node_works::{Weights, Work};
use std::alloc::{AllocError, Global};
use std::marker::Model;

/// What was read next: a row or a work, which the reader holds, or the line `layout K`.
#[derive(Clone, Copy, Debug, PartialEq, Eq)]
pub enum Next {
    Row,
    Work,
    Layout(u32),
}

/// Reads the line `budget N`.
fn read_budget<S: Source>(lines: &mut Lines, src: &mut S) -> Result<u32, ItemFault>
    requires { lines.old.fault ≡ None }
    ensures line { ReadsOneLine result (IsAt AtBudget) lines.old lines.new (S.state src.old) (S.state src.new) }
    ensures reads { IfOk result (λ n. (s : SiteValue) (r : Reader) → r.phase ≡ AtBudget
        → ReadsTo s r (ahead lines.old (S.state src.old)) (ahead lines.new (S.state src.new)) (BudgetLine (pos n) ∷ []) (record r { phase = AtItem; budget = n })) }
    ensures text { IfOk result (λ n. GivesFront (ahead lines.old (S.state src.old)) (ahead lines.new (S.state src.new)) (line (codes "budget" ∷ decimal n ∷ []))) }
    ensures range { IfOk result (λ n. IsBudget n) }
{
    next_line(lines, src)?;
    match budget_in(words_of(lines.text())) {
        Ok(budget) => Ok(budget),
        Err(cause) => Err(refused(lines, cause)),
    }
}

/// Reads the line of a row, whose members `members` holds then, the first line of a work, or the
/// layout's line.
fn read_item<S: Source>(
    lines: &mut Lines,
    src: &mut S,
    members: &mut MemberList,
) -> Result<ItemLine, ItemFault>
    requires { lines.old.fault ≡ None }
    ensures line { ReadsOneLine result (IsAt AtItem) lines.old lines.new (S.state src.old) (S.state src.new) }
    ensures reads { IfOk result (λ item. ReadsItemLine (ahead lines.old (S.state src.old)) (ahead lines.new (S.state src.new)) item members.new) }
{
    next_line(lines, src)?;
    match item_in(words_of(lines.text()), members) {
        Ok(item) => Ok(item),
        Err(cause) => Err(refused(lines, cause)),
    }
}

/// Reads the line of a weight, where one is to come.
fn read_weight<S: Source>(lines: &mut Lines, src: &mut S) -> Result<(u32, i128), ItemFault>
    requires { lines.old.fault ≡ None }
    ensures line { ReadsOneLine result AwaitsWeight lines.old lines.new (S.state src.old) (S.state src.new) }
    ensures reads { IfOk result (λ weight. ReadsWeight (ahead lines.old (S.state src.old)) (ahead lines.new (S.state src.new)) weight) }
{
    next_line(lines, src)?;
    match weight_in(words_of(lines.text())) {
        Ok(weight) => Ok(weight),
        Err(cause) => Err(refused(lines, cause)),
    }
}

/// Reads the lines of so many weights, so that `weights` holds them and no others.
fn read_weights<S: Source>(
    lines: &mut Lines,
    src: &mut S,
    weights: &mut Weights,
    count: u32,
) -> Result<(), ItemFault>
    requires no_fault { lines.old.fault ≡ None }
    requires room { count ≤ 1024 }
    ensures reads { OnOk result (ReadsWeights (ahead lines.old (S.state src.old)) (ahead lines.new (S.state src.new)) weights.new) }
    ensures length { OnOk result (length weights.new ≡ count) }
    ensures no_fault { OnOk result (lines.new.fault ≡ None) }
    ensures lines { OnOk result (line_number_after lines.new.lines 1 ≡ line_number_after lines.old.lines (count + 1)) }
    ensures refused { IfRefused result (λ refusal. (s : SiteValue) (r : Reader) (v : ℕ) → r.phase ≡ AtWeights v count []
        → RefusedAfter s r (ahead lines.old (S.state src.old)) lines.old.lines refusal) }
    ensures read { IfRead result (FaultsRose (S.state src.old) (S.state src.new)) }
    ensures count { FaultsOnlyRise (S.state src.old) (S.state src.new) }
{
    weights.clear();
    for _ in 0..count {
        match read_weight(lines, src) {
            Ok((row, weight)) => add_weight(weights, row, weight),
            Err(fault) => return Err(fault),
        }
    }
    Ok(())
}

/// Adds a weight, for which there is room.
fn add_weight(weights: &mut Weights, row: u32, weight: i128)
    requires { length weights.old < 1024 }
    ensures { weights.new ≡ weights.old ++ (row, weight) ∷ [] }
{
    match weights.push(row, weight) {
        Ok(()) => {}
        Err(_) => unreachable!(),
    }
}

/// Reads the line of an act.
fn read_act<S: Source>(lines: &mut Lines, src: &mut S) -> Result<Act, ItemFault>
    requires { lines.old.fault ≡ None }
    ensures line { ReadsOneLine result AwaitsAct lines.old lines.new (S.state src.old) (S.state src.new) }
    ensures reads { IfOk result (λ act. ReadsAct (ahead lines.old (S.state src.old)) (ahead lines.new (S.state src.new)) act) }
{
    next_line(lines, src)?;
    match act_in(words_of(lines.text())) {
        Ok(act) => Ok(act),
        Err(cause) => Err(refused(lines, cause)),
    }
}

/// Reads the lines of a work behind its first: so many weights, which `weights` holds then, and the act.
fn read_work<S: Source>(
    lines: &mut Lines,
    src: &mut S,
    weights: &mut Weights,
    count: u32,
) -> Result<Act, ItemFault>
    requires no_fault { lines.old.fault ≡ None }
    requires room { count ≤ 1024 }
    ensures reads { IfOk result (λ act. ReadsRest (ahead lines.old (S.state src.old)) (ahead lines.new (S.state src.new)) weights.new act) }
    ensures length { OnOk result (length weights.new ≡ count) }
    ensures no_fault { OnOk result (lines.new.fault ≡ None) }
    ensures number { OnOk result (lines.new.number ≡ lines.new.lines) }
    ensures lines { OnOk result (lines.new.lines ≡ line_number_after lines.old.lines (count + 1)) }
    ensures refused { IfRefused result (λ refusal. (s : SiteValue) (r : Reader) (v : ℕ) → r.phase ≡ AtWeights v count []
        → RefusedAfter s r (ahead lines.old (S.state src.old)) lines.old.lines refusal) }
    ensures read { IfRead result (FaultsRose (S.state src.old) (S.state src.new)) }
    ensures count { FaultsOnlyRise (S.state src.old) (S.state src.new) }
{
    read_weights(lines, src, weights, count)?;
    read_act(lines, src)
}

/// A reader of the budget and the items of a document. Contracts see the last row, the last work and
/// the fault that is kept.
#[derive(Drop)]
pub struct ItemReader {
    kind: RowKind,
    members: MemberList,
    work: Work,
    fault: Option<ItemFault>,
}

impl Model for ItemReader {
    ghost use Rattle.proof_text.specs.Items.{ItemsState};

    ghost Value = { ItemsState };

    ghost view = { λ s. record { kind = s.kind; members = s.members; work = s.work; fault = s.fault } };
}

impl ItemReader {
    /// A reader that holds no item and keeps no fault. All its memory is taken here.
    ///
    /// # Errors
    ///
    /// `AllocError` where there is no memory for 1,024 weights.
    pub fn new(alloc: Global) -> Result<ItemReader, AllocError>
        ensures { IfOk result (λ reader. reader.fault ≡ None) }
    {
        let weights = Weights::new(alloc)?;
        Ok(ItemReader {
            kind: RowKind::Out,
            members: MemberList::new(),
            work: Work {
                node: 0,
                weights,
                act: Act::Stop,
            },
            fault: None,
        })
    }

    /// The kind of the last row.
    pub fn kind(&self) -> RowKind
        ensures { result ≡ self.now.kind }
    {
        self.kind
    }

    /// The members of the last row.
    pub fn members(&self) -> &[u32]
        ensures value { result.now ≡ self.now.members }
        ensures most { length self.now.members ≤ 256 }
    {
        self.members.as_slice()
    }

    /// The last work.
    pub fn work(&self) -> &Work
        ensures { result.now ≡ self.now.work }
    {
        &self.work
    }

    /// Reads the line `budget N`.
    ///
    /// # Errors
    ///
    /// The fault that is kept, and then nothing changes. Else `Refused` with the line's number: `Line`
    /// where it is too long, unended or missing, `Form` where it is another line, `Limit` where N is
    /// out of range; `Read` where the source failed. The fault is kept.
    pub fn budget<S: Source>(&mut self, lines: &mut Lines, src: &mut S) -> Result<u32, ItemFault>
        requires { self.old.fault ≡ None → lines.old.fault ≡ None }
        ensures fault { IfSome self.old.fault (λ fault. (result ≡ Err fault) × (self.new ≡ self.old) × (lines.new ≡ lines.old) × (src.new ≡ src.old)) }
        ensures keeps { IfNone self.old.fault (self.new ≡ record self.old { fault = kept_after result }) }
        ensures line { IfNone self.old.fault (ReadsOneLine result (IsAt AtBudget) lines.old lines.new (S.state src.old) (S.state src.new)) }
        ensures reads { IfOk result (λ n. (s : SiteValue) (r : Reader) → r.phase ≡ AtBudget
            → ReadsTo s r (ahead lines.old (S.state src.old)) (ahead lines.new (S.state src.new)) (BudgetLine (pos n) ∷ []) (record r { phase = AtItem; budget = n })) }
        ensures text { IfOk result (λ n. GivesFront (ahead lines.old (S.state src.old)) (ahead lines.new (S.state src.new)) (line (codes "budget" ∷ decimal n ∷ []))) }
        ensures range { IfOk result (λ n. IsBudget n) }
    {
        if let Some(fault) = self.fault {
            return Err(fault);
        }
        match read_budget(lines, src) {
            Ok(budget) => Ok(budget),
            Err(fault) => {
                self.fault = Some(fault);
                Err(fault)
            }
        }
    }

    /// Reads the next item, which the reader holds then, or the line `layout K`.
    ///
    /// # Errors
    ///
    /// The fault that is kept, and then nothing changes. Else `Refused` with the number of the first
    /// line at which a cause holds: `Line` where it is too long, unended or missing, `Form` where it
    /// is none that may stand there, `Limit` where a number is out of range or a row has more than 256
    /// members; `Read` where the source failed. The fault is kept.
    pub fn next<S: Source>(&mut self, lines: &mut Lines, src: &mut S) -> Result<Next, ItemFault>
        requires { self.old.fault ≡ None → lines.old.fault ≡ None }
        ensures fault { IfSome self.old.fault (λ fault. (result ≡ Err fault) × (self.new ≡ self.old) × (lines.new ≡ lines.old) × (src.new ≡ src.old)) }
        ensures keeps { IfNone self.old.fault (self.new.fault ≡ kept_after result) }
        ensures reads { IfNone self.old.fault (ReadsNext (ahead lines.old (S.state src.old)) (ahead lines.new (S.state src.new)) lines.old.lines lines.new.lines self.new result) }
        ensures no_fault { OnOk result (lines.new.fault ≡ None) }
        ensures number { OnOk result (lines.new.number ≡ lines.new.lines) }
        ensures refused { IfNone self.old.fault (IfRefused result (λ refusal. (s : SiteValue) (r : Reader) → r.phase ≡ AtItem
            → RefusedAfter s r (ahead lines.old (S.state src.old)) lines.old.lines refusal)) }
        ensures read { IfNone self.old.fault (IfRead result (FaultsRose (S.state src.old) (S.state src.new))) }
        ensures count { FaultsOnlyRise (S.state src.old) (S.state src.new) }
    {
        if let Some(fault) = self.fault {
            return Err(fault);
        }
        match self.read_next(lines, src) {
            Ok(next) => Ok(next),
            Err(fault) => {
                self.fault = Some(fault);
                Err(fault)
            }
        }
    }

    /// Reads the next item, which the reader holds then, or the line `layout K`, and keeps no fault.
    fn read_next<S: Source>(&mut self, lines: &mut Lines, src: &mut S) -> Result<Next, ItemFault>
        requires { lines.old.fault ≡ None }
        ensures same { self.new.fault ≡ self.old.fault }
        ensures reads { ReadsNext (ahead lines.old (S.state src.old)) (ahead lines.new (S.state src.new)) lines.old.lines lines.new.lines self.new result }
        ensures no_fault { OnOk result (lines.new.fault ≡ None) }
        ensures number { OnOk result (lines.new.number ≡ lines.new.lines) }
        ensures refused { IfRefused result (λ refusal. (s : SiteValue) (r : Reader) → r.phase ≡ AtItem
            → RefusedAfter s r (ahead lines.old (S.state src.old)) lines.old.lines refusal) }
        ensures read { IfRead result (FaultsRose (S.state src.old) (S.state src.new)) }
        ensures count { FaultsOnlyRise (S.state src.old) (S.state src.new) }
    {
        match read_item(lines, src, &mut self.members) {
            Ok(ItemLine::Row(kind)) => {
                self.kind = kind;
                Ok(Next::Row)
            }
            Ok(ItemLine::Work(node, count)) => {
                match read_work(lines, src, &mut self.work.weights, count) {
                    Ok(act) => {
                        self.work.node = node;
                        self.work.act = act;
                        Ok(Next::Work)
                    }
                    Err(fault) => Err(fault),
                }
            }
            Ok(ItemLine::Layout(count)) => Ok(Next::Layout(count)),
            Err(fault) => Err(fault),
        }
    }
}
