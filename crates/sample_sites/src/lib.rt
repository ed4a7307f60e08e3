//! Sites for tests, by their lines.
#![tactic(auto)]

use cable_text::{Lines, MemorySource};
use site_model::Site;
use site_text::read_site;
use std::alloc::Global;
use std::test::Fail;

/// One turbine 500 metres from its substation.
pub const FIRST: &str =
    "site 1\nmode tree\ntype 400 100\nsubstation S 0 0 4 10000\nturbine A 300 400 100\nend site\n";

/// A substation and three turbines, of which the first is nearest to it. The arcs with their lengths are 0 A>S 1000, 1 A>B 500, 2 A>C 500, 3 B>S 1432,
/// 4 B>A 500, 5 B>C 600, 6 C>S 1432, 7 C>A 500 and 8 C>B 600. The cheapest legal layout costs 2,000.
pub const FORK: &str =
    "site 1\nmode tree\ntype 400 1\nsubstation S 0 0 4 10000\nturbine A 0 1000 100\nturbine B -300 1400 100\nturbine C 300 1400 100\nend site\n";

/// A substation that takes one cable, and three turbines that stand with it on the corners of a square. A cable bears the power of two turbines.
pub const ONE_FEEDER: &str =
    "site 1\nmode tree\ntype 200 1\nsubstation S 0 0 1 10000\nturbine A 0 1000 100\nturbine B 1000 0 100\nturbine C 1000 1000 100\nend site\n";

/// The site of these lines.
///
/// # Errors
///
/// The fault of the lines, where they are no site, or want of memory.
pub fn site_of(alloc: Global, text: &str) -> Result<Site, Fail> {
    let bytes = Vec::from_slice(alloc, text.as_bytes())?;
    let mut source = MemorySource::new(bytes, 4096, Vec::new(alloc));
    let mut lines = Lines::new(alloc)?;
    Ok(read_site(alloc, &mut lines, &mut source)?)
}
