//! Sites in lines, read, written again or refused.

use cable_text::{Lines, MemorySink, MemorySource};
use site_model::{SiteCode, SiteFault};
use site_text::*;
use std::alloc::Global;
use std::test::Fail;

const EVERY_KIND: &[u8] =
    b"site 1\nmode strings\ntype 200 100\ntype 400 170\nsubstation North 0 0 4 10000\nturbine T1 0 1000 100\nturbine T2 -300 1400 100\nbend K 200 500\nobstacle 4\ncorner -100 400\ncorner 100 400\ncorner 100 600\ncorner -100 600\ncharge K T1 7500\nclosed North T2\nend site\n";

/// The fault of a text, if it has one.
fn fault_of(alloc: Global, text: &[u8]) -> Result<Option<SiteFault>, Fail> {
    let mut source = MemorySource::new(Vec::from_slice(alloc, text)?, 64, Vec::new(alloc));
    let mut lines = Lines::new(alloc)?;
    match read_site(alloc, &mut lines, &mut source) {
        Ok(_) => Ok(None),
        Err(fault) => Ok(Some(fault)),
    }
}

/// A refusal.
fn refusal(code: SiteCode, place: u64, broken_line: bool) -> Option<SiteFault> {
    Some(SiteFault::Refused {
        code,
        place,
        broken_line,
    })
}

#[test]
fn a_site_of_every_kind_of_line_is_read_and_written_again(rt: HostRuntime) -> Result<(), Fail> {
    let alloc = rt.alloc();
    let mut source = MemorySource::new(Vec::from_slice(alloc, EVERY_KIND)?, 7, Vec::new(alloc));
    let mut lines = Lines::new(alloc)?;
    let site = read_site(alloc, &mut lines, &mut source)?;
    let mut sink = MemorySink::new(alloc, 512, Vec::new(alloc))?;
    write_site(&site, &mut sink)?;
    assert_eq!(rt; sink.taken(), EVERY_KIND);
    Ok(())
}

#[test]
fn a_fault_has_the_first_code_of_its_line(rt: HostRuntime) -> Result<(), Fail> {
    let alloc = rt.alloc();
    for (text, code, place, broken_line) in [
        (b"".as_slice(), SiteCode::Form, 1, true),
        (b"site 2\n".as_slice(), SiteCode::Range, 1, false),
        (b"site x\n".as_slice(), SiteCode::Shape, 1, false),
        (
            b"site 1\nmode forest\n".as_slice(),
            SiteCode::Shape,
            2,
            false,
        ),
        (
            b"site 1\nmode tree\nend site\n".as_slice(),
            SiteCode::Form,
            3,
            false,
        ),
        (
            b"site 1\nmode tree\nturbine A x 0 100\n".as_slice(),
            SiteCode::Form,
            3,
            false,
        ),
        (
            b"site 1\nmode tree\ntype 400 1\nsubstation S 0 0 4 10000\nturbine A 007 0 100\nend site\n".as_slice(),
            SiteCode::Shape,
            5,
            false,
        ),
        (
            b"site 1\nmode tree\ntype 400 1\nsubstation S 0 0 4 10000\nturbine A 007 0 100".as_slice(),
            SiteCode::Form,
            5,
            true,
        ),
        (
            b"site 1\nmode tree\ntype 400 1\nsubstation S 0 0 4 10000\nturbine A 1000001 0 100\nend site\n".as_slice(),
            SiteCode::Range,
            5,
            false,
        ),
        (
            b"site 1\nmode tree\ntype 400 1\nsubstation S 0 0 4 10000\nturbine A 1000000000000000000000000000000000000000000 0 100\n".as_slice(),
            SiteCode::Range,
            5,
            false,
        ),
        (
            b"site 1\nmode tree\ntype 400 1\nsubstation S 0 0 4 10000\nturbine ABCDEFGHIJKLMNOPQ 0 1 100\n".as_slice(),
            SiteCode::BadName,
            5,
            false,
        ),
        (
            b"site 1\nmode tree\ntype 400 1\nsubstation S 0 0 4 10000\nturbine A 0 0 100\n".as_slice(),
            SiteCode::SamePlace,
            5,
            false,
        ),
        (
            b"site 1\nmode tree\ntype 400 1\nsubstation S 0 0 4 10000\nturbine A 0 9 100\nclosed A X\n".as_slice(),
            SiteCode::UnknownName,
            6,
            false,
        ),
        (
            b"site 1\nmode tree\ntype 400 1\nsubstation S 0 0 4 10000\nturbine A 0 9 100\ncharge A S 1\nclosed S A\n".as_slice(),
            SiteCode::SamePair,
            7,
            false,
        ),
        (
            b"site 1\nmode tree\ntype 400 1\nsubstation S 0 0 4 10000\nobstacle 3\ncorner -9 -9\ncorner 9 -9\ncorner 0 9\nend site\n".as_slice(),
            SiteCode::InObstacle,
            8,
            false,
        ),
        (
            b"site 1\nmode tree\ntype 400 1\nobstacle 3\ncorner -9 -9\nend site\n".as_slice(),
            SiteCode::Form,
            6,
            false,
        ),
    ] {
        assert_eq!(rt; fault_of(alloc, text)?, refusal(code, place, broken_line));
    }
    Ok(())
}

#[test]
fn a_line_has_at_most_4096_bytes(rt: HostRuntime) -> Result<(), Fail> {
    let alloc = rt.alloc();
    let mut text = vec![in alloc; b'x'; 4_097]?;
    assert_eq!(rt;
        fault_of(alloc, text.as_slice())?,
        refusal(SiteCode::TooLong, 1, true)
    );
    text[4_096] = b'\n';
    assert_eq!(rt;
        fault_of(alloc, text.as_slice())?,
        refusal(SiteCode::Form, 1, false)
    );
    Ok(())
}

#[test]
fn the_257th_point_is_one_too_many(rt: HostRuntime) -> Result<(), Fail> {
    let alloc = rt.alloc();
    let mut text = Vec::from_slice(alloc, b"site 1\nmode tree\ntype 400 1\n")?;
    for x in 0..257u32 {
        let line = format!(in alloc; "bend b{x} {x} 0\n")?;
        text.extend_from_slice(line.as_bytes())?;
    }
    assert_eq!(rt;
        fault_of(alloc, text.as_slice())?,
        refusal(SiteCode::TooMany, 260, false)
    );
    Ok(())
}

#[test]
fn a_source_that_fails_is_no_refusal(rt: HostRuntime) -> Result<(), Fail> {
    let alloc = rt.alloc();
    let fails = Vec::from_slice(alloc, &[2])?;
    let mut source = MemorySource::new(Vec::from_slice(alloc, EVERY_KIND)?, 64, fails);
    let mut lines = Lines::new(alloc)?;
    let fault = match read_site(alloc, &mut lines, &mut source) {
        Ok(_) => None,
        Err(fault) => Some(fault),
    };
    assert_eq!(rt; fault, Some(SiteFault::Read));
    Ok(())
}
