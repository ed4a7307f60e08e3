//! Plans of small farms, beside the cheapest of all choices.

use crate::cables::Cables;
use cable_text::{MemorySink, Sink, push_number};
use plain_planner::{cheapest_layout, is_plain};
use run_support::ran_with;
use site_model::{BuildFault, Mode, RawKind, Site, SiteBuilder, Version};
use site_text::write_site;
use std::alloc::{AllocError, Global};

/// How many small farms are tried.
const FARMS: u64 = 16;

/// The next of four draws, 0 to 3, from a state that each draw moves on.
fn draw(state: &mut u64) -> i128 {
    *state = state
        .wrapping_mul(6_364_136_223_846_793_005)
        .wrapping_add(1_442_695_040_888_963_407);
    match (*state >> 33) % 4 {
        0 => 0,
        1 => 1,
        2 => 2,
        _ => 3,
    }
}

/// One of four numbers, by a draw.
fn one_of(state: &mut u64, numbers: [i128; 4]) -> i128 {
    let [first, second, third, fourth] = numbers;
    match draw(state) {
        0 => first,
        1 => second,
        2 => third,
        _ => fourth,
    }
}

/// A farm of one substation and three turbines on a coarse grid, in tree or in strings mode.
fn small_farm(alloc: Global, seed: u64) -> Result<Site, BuildFault> {
    let mut state = seed;
    let mode = if seed % 2 == 0 {
        Mode::Tree
    } else {
        Mode::Strings
    };
    let Ok(mut site) = SiteBuilder::new(alloc, Version::One, mode) else {
        return Err(BuildFault::Memory);
    };
    let capacity = one_of(&mut state, [100, 200, 300, 400]);
    site.add_type(capacity, 1, None)?;
    let feeders = one_of(&mut state, [1, 1, 2, 3]);
    site.add_point(b"S", 0, 0, RawKind::Substation(feeders, 10_000))?;
    for name in [b"A", b"B", b"C"] {
        let x = one_of(&mut state, [500, 1000, 1500, 2000]);
        let y = one_of(&mut state, [0, 500, 1000, 1500]);
        site.add_point(name, x, y, RawKind::Turbine(100))?;
    }
    site.build()
}

/// How the document of an optimal plan of this cost ends.
fn optimal_end(alloc: Global, cost: u64) -> Result<Vec<u8>, AllocError> {
    let mut sink = MemorySink::new(alloc, 64, Vec::new(alloc))?;
    let _ = sink.push(b"optimal ");
    let _ = push_number(i128::from(cost), &mut sink);
    let _ = sink.push(b"\nend document\n");
    Vec::from_slice(alloc, sink.taken())
}

#[test]
fn the_search_finds_what_all_choices_show(rt: HostRuntime) -> Result<(), AllocError> {
    let alloc = rt.alloc();
    let mut compared = 0u64;
    for seed in 0..FARMS {
        // Two points of one place make no farm.
        let Ok(site) = small_farm(alloc, seed) else {
            continue;
        };
        if !is_plain(&site) {
            continue;
        }
        let mut lines = MemorySink::new(alloc, 1024, Vec::new(alloc))?;
        let _ = write_site(&site, &mut lines);
        let plan = ran_with::<Cables>(alloc, &["plan", "1023"], lines.taken(), &[], &[], &[])?;
        match cheapest_layout(alloc, &site)? {
            Some((_, cost)) => {
                let end = optimal_end(alloc, cost)?;
                assert_eq!(rt; plan.status, 0);
                assert!(rt; plan.out.ends_with(end.as_slice()), "farm {seed}");
            }
            None => assert_eq!(rt; plan.status, 5),
        }
        compared = compared.saturating_add(1);
    }
    assert!(rt; compared >= 8);
    Ok(())
}
