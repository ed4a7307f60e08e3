//! The arcs that a node marks used, gathered.

ghost use Rattle.std.specs.Prelude.{◌≡◌, ◌+◌, ◌≤◌, ◌<◌, length};
ghost use Rattle.cable_definitions.specs.Arcs.{AreArcs};
ghost use Rattle.node_reasons.specs.Used.{AreUsed, AreUsedBelow, IsNextStart};

use candidate_cables::Arcs;
use layout_meaning::Cable;
use node_works::{Decisions, Mark};
use site_model::Site;
use std::marker::Model;

/// The most points of a site, so the most starts of cables.
const MOST_STARTS: usize = 256;

/// The first used arc out of each point that has one, as a cable with its arc's number; and the numbers of two used arcs that start
/// alike, if there are any.
#[derive(Drop)]
pub(crate) struct UsedArcs {
    cables: [Cable; MOST_STARTS],
    numbers: [u32; MOST_STARTS],
    count: usize,
    same_start: Option<(u32, u32)>,
}

impl Model for UsedArcs {
    ghost use Rattle.std.specs.Prelude.{take, ◌≤◌};
    ghost use Rattle.node_reasons.specs.Used.{UsedList};

    ghost Value = { UsedList };

    ghost view = { λ u. record { cables = take u.count u.cables; numbers = take u.count u.numbers; same_start = u.same_start } };

    ghost invariant = { λ u. u.count ≤ 256 };
}

impl UsedArcs {
    ghost use Rattle.std.specs.Prelude.{◌≡◌, ◌<◌, ◌≤◌, length, [], None};
    ghost use Rattle.node_reasons.specs.Used.{UsedList, with_used, with_same_start};

    /// No used arc.
    fn none() -> UsedArcs
        ensures { result ≡ record { cables = []; numbers = []; same_start = None } }
    {
        let none = Cable {
            from: 0,
            to: 0,
            grade: 0,
        };
        UsedArcs {
            cables: [none; MOST_STARTS],
            numbers: [0; MOST_STARTS],
            count: 0,
            same_start: None,
        }
    }

    /// The cables, of type 0, in ascending order of start.
    pub(crate) fn cables(&self) -> &[Cable]
        ensures value { result.now ≡ self.now.cables }
        ensures few { length self.now.cables ≤ 256 }
    {
        &self.cables[..self.count]
    }

    /// The numbers of their arcs.
    pub(crate) fn numbers(&self) -> &[u32]
        ensures { result.now ≡ self.now.numbers }
    {
        &self.numbers[..self.count]
    }

    /// Two used arcs that start alike.
    pub(crate) fn same_start(&self) -> Option<(u32, u32)>
        ensures { result ≡ self.now.same_start }
    {
        self.same_start
    }

    /// Adds the cable of an arc.
    fn push(&mut self, number: u32, cable: Cable)
        requires { length self.old.cables < 256 }
        ensures { self.new ≡ with_used self.old number cable }
    {
        let count = self.count;
        if count < MOST_STARTS {
            self.cables[count] = cable;
            self.numbers[count] = number;
            self.count = count + 1;
        }
    }

    /// Notes two arcs that start alike.
    fn note(&mut self, first: u32, second: u32)
        ensures { self.new ≡ with_same_start self.old first second }
    {
        self.same_start = Some((first, second));
    }
}

/// The number of the used arc that was gathered last, and the number past its start.
#[derive(Clone, Copy)]
struct Latest {
    arc: u32,
    past_start: u32,
}

/// Gathers an arc if it is used.
fn gather(
    site: &Site,
    arcs: &Arcs,
    decisions: &Decisions,
    number: u32,
    used: &mut UsedArcs,
    latest: Latest,
) -> Latest
    requires arcs { AreArcs site.now arcs.now }
    requires count { length decisions.now ≡ length arcs.now }
    requires number { number < length arcs.now }
    requires used { AreUsedBelow arcs.now decisions.now number used.old }
    requires next { IsNextStart arcs.now decisions.now number used.old latest.arc latest.past_start }
    ensures used { AreUsedBelow arcs.now decisions.now (number + 1) used.new }
    ensures next { IsNextStart arcs.now decisions.now (number + 1) used.new result.arc result.past_start }
{
    match decisions.mark(number) {
        Mark::Free => return latest,
        Mark::Unused => return latest,
        Mark::Used => (),
    }
    let _valid = site.points();
    let arc = arcs.get(number);
    if arc.from < latest.past_start {
        used.note(latest.arc, number);
        return latest;
    }
    let cable = Cable {
        from: arc.from,
        to: arc.to,
        grade: 0,
    };
    used.push(number, cable);
    Latest {
        arc: number,
        past_start: arc.from + 1,
    }
}

/// The arcs that the decisions mark used, gathered.
pub(crate) fn used_arcs(site: &Site, arcs: &Arcs, decisions: &Decisions) -> UsedArcs
    requires arcs { AreArcs site.now arcs.now }
    requires count { length decisions.now ≡ length arcs.now }
    ensures { AreUsed arcs.now decisions.now result }
{
    let mut used = UsedArcs::none();
    let mut latest = Latest {
        arc: 0,
        past_start: 0,
    };
    for number in 0..arcs.len() {
        latest = gather(site, arcs, decisions, number, &mut used, latest);
    }
    used
}
