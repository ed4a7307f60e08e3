//! The check of a document as a state: rows and works are fed one by one, and the claim at the end.

ghost use Rattle.std.specs.Prelude.{◌≡◌, ◌≤◌, List, None, Some, IfOk, OnOk, IfErr};
ghost use Rattle.cable_definitions.specs.declared.claim.Cause.{Cause as AnyCause};
ghost use Rattle.cable_definitions.specs.Arcs.{AreArcs};
ghost use Rattle.cable_definitions.specs.Tree.{Item, RowItem, WorkItem, empty_state, Accepts, IsAccepted, Agrees, Says};
ghost use Rattle.cable_definitions.specs.Refusal.{IsRowRefused, IsWorkRefused, IsClaimRefused};
ghost use Rattle.cable_definitions.specs.declared.claim.Refusal.{Refusal as AnyRefusal};
ghost use Rattle.proof_checker.specs.State.{Refuses};
ghost use Rattle.proof_checker.specs.Answers.{IsClosingBound};

use crate::claims::{Bound, check_claim};
use crate::rows::list_row;
use crate::works::do_work;
use arc_choices::ceiling;
use branch_tree::Tree;
use cable_definitions::claim::{Cause, Claim, Refusal};
use cable_definitions::row::RowKind;
use cable_rows::RowPool;
use candidate_cables::Arcs;
use layout_meaning::Layout;
use node_works::{Decisions, Work};
use site_model::Site;
use std::alloc::{AllocError, Global};
use std::marker::Model;

/// The check of a document's items, fed one by one, and of its claim. It takes all its memory at the start, and
/// holds no list of items. Once a line is refused, every further call answers that refusal.
#[derive(Drop)]
pub struct Checker<'a> {
    site: &'a Site,
    arcs: Arcs,
    budget: u32,
    ceiling: u64,
    pool: RowPool,
    tree: Tree,
    decisions: Decisions,
    refused: Option<Refusal>,
}

impl<'a> Model for Checker<'a> {
    ghost use Rattle.std.specs.Prelude.{length};
    ghost use Rattle.proof_checker.specs.State.{CheckerState, IsChecker, kept_from};

    ghost Value = { CheckerState };

    ghost view = { λ c. record { site = c.site.now; arcs = c.arcs; budget = c.budget; state = kept_from c.pool c.tree; refused = c.refused } };

    ghost invariant = { λ c. IsChecker c.site.now c.arcs c.budget c.ceiling c.tree (length c.decisions) };
}

/// Keeps the refusal of a line.
fn keep(refused: &mut Option<Refusal>, line: u64, cause: Cause) -> Refusal
    ensures refusal { result ≡ record { line = line; cause = cause } }
    ensures kept { refused.new ≡ Some result }
{
    let refusal = Refusal { line, cause };
    *refused = Some(refusal);
    refusal
}

impl<'a> Checker<'a> {
    /// A checker of a document with this site and this budget of works, from 1 to 50,000. All memory is taken here.
    ///
    /// # Errors
    ///
    /// `AllocError` for want of memory alone.
    pub fn begin(alloc: Global, site: &'a Site, budget: u32) -> Result<Checker<'a>, AllocError>
        requires some_work { 1 ≤ budget }
        requires most_works { budget ≤ 50000 }
        ensures site { IfOk result (λ checker. checker.site ≡ site.now) }
        ensures arcs { IfOk result (λ checker. AreArcs site.now checker.arcs) }
        ensures budget { IfOk result (λ checker. checker.budget ≡ budget) }
        ensures state { IfOk result (λ checker. checker.state ≡ empty_state) }
        ensures refused { IfOk result (λ checker. checker.refused ≡ None) }
    {
        let arcs = Arcs::new(alloc, site)?;
        Checker::with_arcs(alloc, site, arcs, budget)
    }

    /// The same, where the site's arcs are listed already. All else that it needs of memory is taken here.
    ///
    /// # Errors
    ///
    /// `AllocError` for want of memory alone.
    pub fn with_arcs(
        alloc: Global,
        site: &'a Site,
        arcs: Arcs,
        budget: u32,
    ) -> Result<Checker<'a>, AllocError>
        requires own_arcs { AreArcs site.now arcs }
        requires some_work { 1 ≤ budget }
        requires most_works { budget ≤ 50000 }
        ensures site { IfOk result (λ checker. checker.site ≡ site.now) }
        ensures arcs { IfOk result (λ checker. checker.arcs ≡ arcs) }
        ensures budget { IfOk result (λ checker. checker.budget ≡ budget) }
        ensures state { IfOk result (λ checker. checker.state ≡ empty_state) }
        ensures refused { IfOk result (λ checker. checker.refused ≡ None) }
    {
        let ceiling = ceiling(site, &arcs);
        let pool = RowPool::new(alloc)?;
        let tree = Tree::new(alloc, budget, arcs.len())?;
        let decisions = Decisions::new(alloc, arcs.len())?;
        Ok(Checker {
            site,
            arcs,
            budget,
            ceiling,
            pool,
            tree,
            decisions,
            refused: None,
        })
    }

    /// Feeds a row, whose line has this number. It takes no memory.
    ///
    /// # Errors
    ///
    /// The refusal of an earlier line, where there is one; nothing changes then. Else a refusal of this line, which is kept: `Row` where
    /// the row isn't well formed, else `Limit` where 16,384 rows are listed or the members of all rows with these would be more than
    /// 1,048,576.
    pub fn feed_row(&mut self, line: u64, kind: RowKind, members: &[u32]) -> Result<(), Refusal>
        ensures accepted { OnOk result (Accepts self.old.site self.old.arcs self.old.budget self.old.state
            (RowItem (record { kind = kind; members = members.now })) self.new.state) }
        ensures no_cause { OnOk result ((cause : AnyCause)
            → ¬ (IsRowRefused self.old.site self.old.arcs self.old.state (record { kind = kind; members = members.now }) cause)) }
        ensures stays { OnOk result (self.new ≡ record self.old { state = self.new.state }) }

        ensures refused { self.old.refused ≡ None → IfErr result (Refuses self.old self.new line
            (IsRowRefused self.old.site self.old.arcs self.old.state (record { kind = kind; members = members.now }))) }
        ensures again { (refusal : AnyRefusal) → self.old.refused ≡ Some refusal → (result ≡ Err refusal) × (self.new ≡ self.old) }
    {
        if let Some(refusal) = self.refused {
            return Err(refusal);
        }
        match list_row(self.site, &self.arcs, &mut self.pool, kind, members) {
            Ok(()) => Ok(()),
            Err(cause) => Err(keep(&mut self.refused, line, cause)),
        }
    }

    /// Feeds a work, whose last line has this number. It takes no memory.
    ///
    /// # Errors
    ///
    /// The refusal of an earlier line, where there is one; nothing changes then. Else a refusal of this line, which is kept, with the first
    /// of these causes: `Limit` where the works were as many as the budget; `Node` where the node isn't made or was worked; `Weight` where
    /// the weights aren't lawful; `Arc` where a
    /// split names no arc that is free; `Dead` where the reason isn't true of the node with its new bound; `Full` where the node isn't
    /// full.
    pub fn feed_work(&mut self, line: u64, work: &Work) -> Result<(), Refusal>
        ensures accepted { OnOk result (Accepts self.old.site self.old.arcs self.old.budget self.old.state
            (WorkItem work.now.node work.now.weights work.now.act) self.new.state) }
        ensures no_cause { OnOk result ((cause : AnyCause)
            → ¬ (IsWorkRefused self.old.site self.old.arcs self.old.budget self.old.state work.now.node work.now.weights work.now.act cause)) }
        ensures stays { OnOk result (self.new ≡ record self.old { state = self.new.state }) }

        ensures refused { self.old.refused ≡ None → IfErr result (Refuses self.old self.new line
            (IsWorkRefused self.old.site self.old.arcs self.old.budget self.old.state work.now.node work.now.weights work.now.act)) }
        ensures again { (refusal : AnyRefusal) → self.old.refused ≡ Some refusal → (result ≡ Err refusal) × (self.new ≡ self.old) }
    {
        if let Some(refusal) = self.refused {
            return Err(refusal);
        }
        match do_work(
            self.site,
            &self.arcs,
            &self.pool,
            &mut self.tree,
            &mut self.decisions,
            self.budget,
            self.ceiling,
            work,
        ) {
            Ok(()) => Ok(()),
            Err(cause) => Err(keep(&mut self.refused, line, cause)),
        }
    }

    /// What the document says of all legal layouts, by its layout and its claim, whose line has this number: the least bound over the leaves
    /// that aren't dead, or that there is no legal layout. It takes no memory.
    ///
    /// # Errors
    ///
    /// The refusal of an earlier line, where there is one. Else a refusal of this line, which is kept: `Layout` where the layout isn't legal
    /// at the claimed cost, or isn't a grown part to which the named turbine can't be joined, or a claim that there is none has a cable; else
    /// `Verdict` where the claim disagrees with the least bound, or a gap has a bound that isn't below its cost, or a gap or a part has works
    /// that aren't as many as the budget.
    pub fn close(&mut self, line: u64, layout: &Layout, claim: Claim) -> Result<Bound, Refusal>
        ensures agrees { OnOk result (Agrees self.old.site self.old.budget self.old.state layout.now claim) }
        ensures bound { IfOk result (IsClosingBound self.old.state) }
        ensures says { OnOk result ((items : List Item) → IsAccepted self.old.site self.old.arcs self.old.budget items self.old.state
            → Says self.old.site claim) }
        ensures no_cause { OnOk result ((cause : AnyCause) → ¬ (IsClaimRefused self.old.site self.old.budget self.old.state layout.now claim cause)) }
        ensures stays { OnOk result (self.new ≡ self.old) }

        ensures refused { self.old.refused ≡ None → IfErr result (Refuses self.old self.new line
            (IsClaimRefused self.old.site self.old.budget self.old.state layout.now claim)) }
        ensures again { (refusal : AnyRefusal) → self.old.refused ≡ Some refusal → (result ≡ Err refusal) × (self.new ≡ self.old) }
    {
        if let Some(refusal) = self.refused {
            return Err(refusal);
        }
        let _valid = self.site.points();
        match check_claim(self.site, &self.tree, self.budget, layout, claim) {
            Ok(bound) => Ok(bound),
            Err(cause) => Err(keep(&mut self.refused, line, cause)),
        }
    }
}
