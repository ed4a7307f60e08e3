//! The reports of layouts, whole and cut off.

ghost use Rattle.std.specs.Prelude.{All};
ghost use Rattle.plan_report.specs.Reported.{IsReported};
ghost use Rattle.site_text.specs.Verdict.{NamesPoint};

use cable_definitions::claim::Claim;
use cable_text::{MemorySink, Sink};
use layout_meaning::{Cable, Layout, Verdict, judge};
use plan_report::report;
use sample_sites::{FIRST, site_of};
use site_model::Site;
use std::alloc::Global;
use std::process::Abort;
use std::test::Fail;

/// The report of a layout that is reported, or as much of it as a sink takes of which the pushes of
/// these numbers fail.
fn text_of(
    alloc: Global,
    site: &Site,
    layout: &Layout,
    claim: Claim,
    fails: &[u64],
) -> Result<Vec<u8>, Fail>
    requires cables { All (IsReported site.now layout.now) layout.now }
    requires claim { NamesPoint site.now claim }
{
    let mut out = MemorySink::new(alloc, 2048, Vec::from_slice(alloc, fails)?)?;
    let ended = report(site, layout, claim, &mut out);
    if ended.is_err() {
        out.push(b"!")?;
    }
    Ok(Vec::from_slice(alloc, out.taken())?)
}

/// The report of a legal layout of these cables.
fn reported(
    rt: &impl Abort,
    alloc: Global,
    site: &Site,
    cables: &[(u32, u32, u32)],
    claim: Claim,
    fails: &[u64],
) -> Result<Vec<u8>, Fail>
    requires { NamesPoint site.now claim }
{
    let mut layout = Layout::new(alloc)?;
    for (from, to, grade) in cables.iter().copied() {
        layout.push(Cable { from, to, grade })?;
    }
    match judge(site, &layout) {
        Verdict::Legal(cost) => text_of(alloc, site, &layout, claim, fails),
        Verdict::Broken(rule, a, b) => panic!(rt; "the layout is illegal"),
    }
}

const SMALL: &str = "mode tree
cable A                S                 0      500      100               50000
type 0 cables 1 length 500 cost 50000
substation S feeders 1 of 4 power 100 of 10000
optimal 50000
";

#[test]
fn one_cable(rt: HostRuntime) -> Result<(), Fail> {
    let alloc = rt.alloc();
    let site = site_of(alloc, FIRST)?;
    let text = reported(&rt, alloc, &site, &[(1, 0, 0)], Claim::Optimal(50000), &[])?;
    assert!(&rt; text.as_slice() == SMALL.as_bytes());
    Ok(())
}

#[test]
fn a_push_that_fails(rt: HostRuntime) -> Result<(), Fail> {
    let alloc = rt.alloc();
    let site = site_of(alloc, FIRST)?;
    let cables = [(1, 0, 0)];
    let text = reported(&rt, alloc, &site, &cables, Claim::Infeasible, &[2])?;
    assert!(&rt; text.as_slice() == b"mode tree\n!".as_slice());
    Ok(())
}

/// Strings of two types into two substations, one of them round a bend.
const LARGE_SITE: &str =
    "site 1\nmode strings\ntype 150 10\ntype 400 30\ntype 9000 1000000\nsubstation North 0 0 2 400\nsubstation South 0 -10000 1 1000\nturbine A 0 1000 100\nturbine B 0 2000 150\nturbine Turbine-16.bytes 3000 -10000 150\nbend Corner 3000 0\nturbine D 1000 -10000 1000\ncharge D South 1000000000000\nend site\n";

const LARGE: &str = "mode strings
cable A                North             1     1000      250               30000
cable B                A                 0     1000      150               10000
cable Turbine-16.bytes Corner            0    10000      150              100000
cable Corner           North             0     3000      150               30000
cable D                South             2     1000     1000       1001000000000
type 0 cables 3 length 14000 cost 140000
type 1 cables 1 length 1000 cost 30000
type 2 cables 1 length 1000 cost 1001000000000
substation North feeders 2 of 2 power 400 of 400
substation South feeders 1 of 1 power 1000 of 1000
gap 1001000170000 7
";

#[test]
fn strings_of_three_types(rt: HostRuntime) -> Result<(), Fail> {
    let alloc = rt.alloc();
    let site = site_of(alloc, LARGE_SITE)?;
    let cables = [(2, 0, 1), (3, 2, 0), (4, 5, 0), (5, 0, 0), (6, 1, 2)];
    let claim = Claim::Gap {
        cost: 1001000170000,
        bound: 7,
    };
    let text = reported(&rt, alloc, &site, &cables, claim, &[])?;
    assert!(&rt; text.as_slice() == LARGE.as_bytes());
    Ok(())
}

#[test]
fn no_cable(rt: HostRuntime) -> Result<(), Fail> {
    let alloc = rt.alloc();
    let site = site_of(alloc, FIRST)?;
    let layout = Layout::new(alloc)?;
    let text = text_of(alloc, &site, &layout, Claim::Infeasible, &[])?;
    assert!(&rt; text.as_slice() == NOTHING.as_bytes());
    Ok(())
}

const NOTHING: &str = "mode tree
type 0 cables 0 length 0 cost 0
substation S feeders 0 of 4 power 0 of 10000
infeasible
";
