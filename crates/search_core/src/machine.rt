//! The search over lists of events.

ghost use Rattle.std.specs.Prelude.{◌≡◌, ℕ, ◌≤◌, pos, ◌≤ℤ◌, nat_abs, List, Some, None, Ok, true, false, IfOk, IfSome, IfNone, OnErr, IsErr, ◌↔◌};
ghost use Rattle.cable_definitions.specs.Arcs.{AreArcs};
ghost use Rattle.cable_definitions.specs.Layout.{IsLegal, cost as cost_of};
ghost use Rattle.cable_definitions.specs.Tree.{Item, Node, node_of, IsLeastBound, AllDead};
ghost use Rattle.cable_definitions.specs.Core.{IsClosed, IsSpent, first_core};
ghost use Rattle.stored_makers.specs.Makers.{MakesSoundRows};
ghost use Rattle.stored_makers.specs.Choosers.{ChoosesFreeArcs};
ghost use Rattle.search_progress.specs.Lists.{Lists};
ghost use Rattle.search_core.specs.Calls.{IsCalled};
ghost use Rattle.search_progress.specs.Progress.{kept_of};
ghost use Rattle.search_core.specs.Works.{IsOnlyListed};
ghost use Rattle.search_parts.specs.Floored.{IsFloored};
ghost use Rattle.search_core.specs.Steps.{event_of, IsSound, Did};
ghost use Rattle.search_core.specs.State.{IsRunning, KeepsParts, core};

use crate::events::step_on;
use bound_shares::Shares;
use branch_tree::Act;
use cable_rows::{Row, RowPool};
use candidate_cables::Arcs;
use layout_meaning::Layout;
use node_works::{Decisions, Work};
use search_progress::{Ended, Progress};
use site_model::Site;
use std::alloc::{AllocError, Global};
use std::marker::Model;
use stored_makers::{Chooser, CutMaker};

/// What happens to a search: a lane takes a node, a lane works the node that it holds, or a legal layout was found.
#[derive(Clone, Copy)]
pub enum Event<'a> {
    Take(u32),
    Work(u32),
    Found(&'a Layout),
}

/// What an event did: nothing; a lane took a node; the layout is the known one now; or the rows with numbers from `rows_from` up to and without
/// `rows_to` were listed and then the last work was done.
#[derive(Clone, Copy, Debug, PartialEq, Eq)]
pub enum Step {
    Nothing,
    Took(u32),
    Kept,
    Worked { rows_from: u32, rows_to: u32 },
}

/// A search for the cheapest legal layout of a site, with a stored maker of rows and a stored chooser of arcs.
#[derive(Drop)]
pub struct Search<'a, F, G> {
    site: &'a Site,
    arcs: &'a Arcs,
    maker: CutMaker<'a, F>,
    chooser: Chooser<G>,
    progress: Progress,
    lacks_memory: bool,
}

impl<'a, F, G> Model for Search<'a, F, G> {
    ghost use Rattle.search_core.specs.State.{State};

    ghost Value = { State F G };

    ghost view = { λ q. record { site = q.site.now; arcs = q.arcs.now; maker = q.maker; chooser = q.chooser; progress = q.progress; lacks_memory = q.lacks_memory } };
}

impl<
    'a,
    F: Fn(&Site, &Arcs, &Shares) -> Result<Option<Row>, AllocError>,
    G: Fn(&Arcs, &Decisions, &Shares) -> Option<u32>,
> Search<'a, F, G> {
    /// A search over so many works and lanes, which lists the rows on the cables of single points at once: these are its first items. The maker is one for
    /// that site.
    ///
    /// # Errors
    ///
    /// `AllocError` where there is no memory.
    pub fn new(
        alloc: Global,
        site: &'a Site,
        arcs: &'a Arcs,
        budget: u32,
        lanes: u32,
        maker: CutMaker<'a, F>,
        chooser: Chooser<G>,
    ) -> Result<Search<'a, F, G>, AllocError>
        requires arcs { AreArcs site.now arcs.now }
        requires some_work { 1 ≤ budget }
        requires most_works { budget ≤ 50000 }
        requires few_lanes { lanes ≤ 16 }
        requires makes { MakesSoundRows F.Fn maker.make maker.site }
        requires maker_site { maker.site ≡ site.now }
        requires chooses { ChoosesFreeArcs G.Fn chooser }
        requires not_called { maker.calls ≡ 0 }
        requires none_made { maker.made ≡ 0 }
        ensures running { IfOk result (IsRunning F.Fn G.Fn) }
        ensures first { IfOk result (λ search. core (first_core site.now lanes).items search ≡ first_core site.now lanes) }
        ensures site { IfOk result (λ search. search.site ≡ site.now) }
        ensures arcs { IfOk result (λ search. search.arcs ≡ arcs.now) }
        ensures budget { IfOk result (λ search. search.progress.budget ≡ budget) }
        ensures maker { IfOk result (λ search. search.maker ≡ maker.entry) }
        ensures memory { IfOk result (λ search. search.lacks_memory ≡ false) }
    {
        let progress = Progress::new(alloc, site, arcs, budget, lanes)?;
        Ok(Search {
            site,
            arcs,
            maker,
            chooser,
            progress,
            lacks_memory: false,
        })
    }

    /// Has an event happen. A layout that was found has to be legal. `Nothing` comes exactly where the event isn't possible. The work on node 1 leaves it
    /// dead, or with a bound of at least the sum of the least costs out of the turbines, and on a site without bends of at least the cost of the cheapest
    /// in-tree; where there is no in-tree it is dead.
    ///
    /// # Errors
    ///
    /// `AllocError` where there is no memory, and at each later step; some rows may have been listed, and all else is as before.
    pub fn step(&mut self, alloc: Global, event: Event) -> Result<Step, AllocError>
        requires running { IsRunning F.Fn G.Fn self.old }
        requires legal { IsSound self.old.site event }
        ensures running { IsRunning F.Fn G.Fn self.new }
        ensures parts { KeepsParts self.old self.new }
        ensures did { IfOk result (Did self.old.site self.old.arcs self.old.progress.budget self.old.progress (event_of event.entry) self.new.progress) }
        ensures floor { (rows_from rows_to : ℕ) (made : Node) → result ≡ Ok (Step.Worked rows_from rows_to) → self.new.progress.work.node ≡ 1
            → node_of self.new.progress.tree.nodes 1 ≡ Some made → IsFloored self.old.site made }
        ensures called { (rows_from rows_to arc : ℕ) → result ≡ Ok (Step.Worked rows_from rows_to) → self.new.progress.work.act ≡ Act.Split arc
            → IsCalled self.old.maker self.new.maker self.old.progress.pool self.new.progress.pool }
        ensures lists { Lists self.old.site self.old.arcs self.old.progress.pool self.new.progress.pool }
        ensures only_listed { OnErr result (IsOnlyListed self.old.progress self.new.progress) }
        ensures memory { self.new.lacks_memory ≡ true ↔ IsErr result }
        ensures refused { self.old.lacks_memory ≡ true → IsErr result × (self.new ≡ self.old) }
    {
        if self.lacks_memory {
            return Err(AllocError);
        }
        let done = step_on(
            alloc,
            self.site,
            self.arcs,
            &mut self.maker,
            &self.chooser,
            &mut self.progress,
            event,
        );
        self.lacks_memory = done.is_err();
        done
    }

    /// How the search ended: closed exactly where no lane holds a node and no open node has a bound below the known cost, by its budget exactly where
    /// that many works stand and such an open node is left; none where it hasn't.
    pub fn ended(&self) -> Option<Ended>
        requires running { IsRunning F.Fn G.Fn self.now }
        ensures closed { (items : List Item) → (result ≡ Some Ended.Closed) ↔ IsClosed self.now.site (core items self.now) }
        ensures spent { (items : List Item) → (result ≡ Some Ended.Budget) ↔ IsSpent self.now.site self.now.progress.budget (core items self.now) }
    {
        self.progress.ended()
    }

    /// The known layout with its cost in cost units, where one is known.
    pub fn best(&self) -> Option<(&Layout, u64)>
        requires running { IsRunning F.Fn G.Fn self.now }
        ensures some { IfSome result (λ best. (items : List Item) → (core items self.now).known ≡ Some best.0.now) }
        ensures legal { IfSome result (λ best. IsLegal self.now.site best.0.now) }
        ensures cost { IfSome result (λ best. best.1 ≡ cost_of self.now.site best.0.now) }
        ensures none { IfNone result ((items : List Item) → (core items self.now).known ≡ None) }
    {
        match self.progress.known {
            None => None,
            Some(cost) => Some((&self.progress.best, cost)),
        }
    }

    /// The rows that are listed.
    pub fn pool(&self) -> &RowPool
        ensures { result.now ≡ self.now.progress.pool }
    {
        &self.progress.pool
    }

    /// The least bound, in cost units, over the leaves that aren't dead; none where all are.
    pub fn least(&self) -> Option<i128>
        ensures some { IfSome result (λ bound. IsLeastBound (kept_of self.now.progress) (nat_abs bound)) }
        ensures not_negative { IfSome result (λ bound. pos 0 ≤ℤ bound) }
        ensures none { IfNone result (AllDead (kept_of self.now.progress)) }
    {
        self.progress.tree.least()
    }

    /// How many nodes were worked.
    pub fn worked(&self) -> u32
        ensures { result ≡ self.now.progress.tree.works }
    {
        self.progress.tree.works()
    }

    /// The work that was done last, where one was.
    pub fn last_work(&self) -> &Work
        requires some { 1 ≤ self.now.progress.tree.works }
        ensures { result.now ≡ self.now.progress.work }
    {
        &self.progress.work
    }

    /// The maker of rows.
    pub fn maker(&self) -> &CutMaker<'a, F>
        ensures { result.now ≡ self.now.maker }
    {
        &self.maker
    }
}
