//! A node as its reasons see it.

ghost use Rattle.std.specs.Prelude.{◌≡◌, length};
ghost use Rattle.cable_definitions.specs.Arcs.{AreArcs};

use crate::used::{UsedArcs, used_arcs};
use candidate_cables::Arcs;
use node_works::Decisions;
use site_model::Site;
use std::marker::Model;

/// A node as its reasons see it: its site, the arcs and the node's decisions, with the used arcs gathered once.
#[derive(Drop)]
pub struct NodeBox<'a> {
    pub(crate) site: &'a Site,
    pub(crate) arcs: &'a Arcs,
    pub(crate) decisions: &'a Decisions,
    pub(crate) used: UsedArcs,
}

impl<'a> Model for NodeBox<'a> {
    ghost use Rattle.node_reasons.specs.Node.{NodeParts, IsNodeBox};

    ghost Value = { NodeParts };

    ghost view = { λ n. record { site = n.site.now; arcs = n.arcs.now; marks = n.decisions.now } };

    ghost invariant = { λ n. IsNodeBox n.site.now n.arcs.now n.decisions.now n.used };
}

impl<'a> NodeBox<'a> {
    /// The box of a node with these decisions on the arcs of a site.
    pub fn new(site: &'a Site, arcs: &'a Arcs, decisions: &'a Decisions) -> NodeBox<'a>
        requires arcs { AreArcs site.now arcs.now }
        requires count { length decisions.now ≡ length arcs.now }
        ensures { result ≡ record { site = site.now; arcs = arcs.now; marks = decisions.now } }
    {
        // The points of a site come with the fact that it is valid.
        let _points = site.points();
        let used = used_arcs(site, arcs, decisions);
        NodeBox {
            site,
            arcs,
            decisions,
            used,
        }
    }
}
