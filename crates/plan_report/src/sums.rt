//! What cables, types and substations bear.

ghost use Rattle.std.specs.Prelude.{◌≡◌, ◌≤◌, ◌<◌, length, sum_by, All};
ghost use Rattle.cable_definitions.specs.Report.{cable_length as length_of_cable, cable_cost as cost_of_cable, of_type};
ghost use Rattle.plan_report.specs.Reported.{IsReported};

use layout_meaning::{Cable, Flows};
use plane_geometry::length;
use site_model::Site;

/// The length of a cable in metres.
pub(crate) fn cable_length(site: &Site, cable: Cable) -> u32
    requires from { cable.from < length site.now.points }
    requires to { cable.to < length site.now.points }
    ensures metres { result ≡ length_of_cable site.now cable }
    ensures small { result ≤ 2828428 }
{
    let points = site.points();
    let from = points[cable.from as usize].at;
    let to = points[cable.to as usize].at;
    length(from, to)
}

/// The cost of a cable at its load, in cost units.
pub(crate) fn cable_cost(flows: &Flows, cable: Cable) -> u64
    requires { IsReported flows.now.site flows.now.cables cable }
    ensures cost { result ≡ cost_of_cable flows.now.site flows.now.cables cable }
    ensures small { result ≤ 28400000000000000 }
{
    let site = flows.site();
    let carried = flows.load(cable.from);
    site.arc_cost(cable.from, cable.to, cable.grade, carried)
}

/// How many cables are of a type.
pub(crate) fn count_of_type(cables: &[Cable], grade: u32) -> usize
    ensures { result ≡ length (of_type cables.now grade) }
{
    cables.iter().filter(|cable| cable.grade == grade).count()
}

/// The sum of the lengths of the cables of a type, in metres.
pub(crate) fn length_of_type(site: &Site, cables: &[Cable], grade: u32) -> u64
    requires count { length cables.now ≤ 256 }
    requires cables { All (IsReported site.now cables.now) cables.now }
    ensures { result ≡ sum_by (length_of_cable site.now) (of_type cables.now grade) }
{
    let mut total: u64 = 0;
    for cable in cables {
        if cable.grade == grade {
            total += u64::from(cable_length(site, *cable));
        }
    }
    total
}

/// The sum of the costs of the cables of a type, each at its load, in cost units.
pub(crate) fn cost_of_type(flows: &Flows, grade: u32) -> u64
    requires count { length flows.now.cables ≤ 256 }
    requires cables { All (IsReported flows.now.site flows.now.cables) flows.now.cables }
    ensures { result ≡ sum_by (cost_of_cable flows.now.site flows.now.cables) (of_type flows.now.cables grade) }
{
    let cables = flows.cables();
    let mut total: u64 = 0;
    for cable in cables {
        if cable.grade == grade {
            total += cable_cost(flows, *cable);
        }
    }
    total
}
