//! The items of a document, read from lines.

use cable_definitions::claim::{Cause, Claim, Refusal};
use cable_definitions::row::{Act, RowKind};
use cable_text::{Lines, MemorySource};
use proof_text::*;
use sample_sites::site_of;
use std::alloc::Global;
use std::test::Fail;

#[test]
fn items_of_a_document(rt: HostRuntime) -> Result<(), Fail> {
    let alloc = rt.alloc();
    let bytes = Vec::from_slice(
        alloc,
        b"budget 10\nrow out 1\nwork 1 0\nsplit 0\nlayout 1\n",
    )?;
    let mut source = MemorySource::new(bytes, 7, Vec::new(alloc));
    let mut lines = Lines::new(alloc)?;
    let mut reader = ItemReader::new(alloc)?;
    assert_eq!(rt; reader.budget(&mut lines, &mut source), Ok(10));
    assert_eq!(rt; reader.next(&mut lines, &mut source), Ok(Next::Row));
    assert_eq!(rt; reader.kind(), RowKind::Out);
    assert_eq!(rt; reader.members(), [1].as_slice());
    assert_eq!(rt; reader.next(&mut lines, &mut source), Ok(Next::Work));
    assert_eq!(rt; reader.work().node, 1);
    assert_eq!(rt; reader.work().act, Act::Split(0));
    assert_eq!(rt; reader.next(&mut lines, &mut source), Ok(Next::Layout(1)));
    Ok(())
}

#[test]
fn a_work_with_weights(rt: HostRuntime) -> Result<(), Fail> {
    let alloc = rt.alloc();
    let bytes = Vec::from_slice(
        alloc,
        b"row flow 3\nwork 7 2\nby 16383 -75557863725914323419136\nby 0 5\nfull\nrow power 2\n",
    )?;
    let mut source = MemorySource::new(bytes, 4096, Vec::new(alloc));
    let mut lines = Lines::new(alloc)?;
    let mut reader = ItemReader::new(alloc)?;
    assert_eq!(rt; reader.next(&mut lines, &mut source), Ok(Next::Row));
    assert_eq!(rt; reader.kind(), RowKind::Flow);
    assert_eq!(rt; reader.next(&mut lines, &mut source), Ok(Next::Work));
    assert_eq!(rt; reader.work().node, 7);
    let want = [(16_383, -75_557_863_725_914_323_419_136), (0, 5)];
    assert_eq!(rt; reader.work().weights.as_slice(), want.as_slice());
    assert_eq!(rt; reader.work().act, Act::Full);
    assert_eq!(rt; reader.next(&mut lines, &mut source), Ok(Next::Row));
    assert_eq!(rt; reader.kind(), RowKind::Power);
    Ok(())
}

#[test]
fn rows_of_sets_and_of_arcs(rt: HostRuntime) -> Result<(), Fail> {
    let alloc = rt.alloc();
    let bytes = Vec::from_slice(alloc, b"row cut 1 2 3\nrow one 65279 0\nrow out 255\n")?;
    let mut source = MemorySource::new(bytes, 5, Vec::new(alloc));
    let mut lines = Lines::new(alloc)?;
    let mut reader = ItemReader::new(alloc)?;
    assert_eq!(rt; reader.next(&mut lines, &mut source), Ok(Next::Row));
    assert_eq!(rt; reader.kind(), RowKind::Cut);
    assert_eq!(rt; reader.members(), [1, 2, 3].as_slice());
    assert_eq!(rt; reader.next(&mut lines, &mut source), Ok(Next::Row));
    assert_eq!(rt; reader.kind(), RowKind::One);
    assert_eq!(rt; reader.members(), [65_279, 0].as_slice());
    assert_eq!(rt; reader.next(&mut lines, &mut source), Ok(Next::Row));
    assert_eq!(rt; reader.kind(), RowKind::Out);
    assert_eq!(rt; reader.members(), [255].as_slice());
    Ok(())
}

/// The line of a row of a set with so many members.
fn row_of_many(alloc: Global, count: u32) -> Result<Vec<u8>, Fail> {
    let mut line = Vec::from_slice(alloc, b"row cut")?;
    for _ in 0..count {
        line.extend_from_slice(b" 7")?;
    }
    line.push(b'\n')?;
    Ok(line)
}

#[test]
fn rows_of_many_members(rt: HostRuntime) -> Result<(), Fail> {
    for (count, want) in [
        (256, Ok(Next::Row)),
        (
            257,
            Err(ItemFault::Refused(Refusal {
                line: 1,
                cause: Cause::Limit,
            })),
        ),
    ] {
        let bytes = row_of_many(rt.alloc(), count)?;
        assert_eq!(rt; first_item(rt.alloc(), bytes.as_slice())?, want);
    }
    Ok(())
}

/// What is read first where an item may stand.
fn first_item(alloc: Global, text: &[u8]) -> Result<Result<Next, ItemFault>, Fail> {
    let bytes = Vec::from_slice(alloc, text)?;
    let mut source = MemorySource::new(bytes, 4096, Vec::new(alloc));
    let mut lines = Lines::new(alloc)?;
    let mut reader = ItemReader::new(alloc)?;
    Ok(reader.next(&mut lines, &mut source))
}

#[test]
fn causes_of_items(rt: HostRuntime) -> Result<(), Fail> {
    for (text, line, cause) in [
        (b"".as_slice(), 1, Cause::Line),
        (b"row out 1".as_slice(), 1, Cause::Line),
        (b"row cut\n".as_slice(), 1, Cause::Form),
        (b"row cut 1  2\n".as_slice(), 1, Cause::Form),
        (b"row one 70000 x\n".as_slice(), 1, Cause::Form),
        (b"row cut 0 300\n".as_slice(), 1, Cause::Limit),
        (b"row out 1 2\n".as_slice(), 1, Cause::Form),
        (b"work 100002 x\n".as_slice(), 1, Cause::Form),
        (b"row out 256\n".as_slice(), 1, Cause::Limit),
        (b"row out 1 999\n".as_slice(), 1, Cause::Form),
        (b"row one 65280\n".as_slice(), 1, Cause::Limit),
        (b"work 1 1025\n".as_slice(), 1, Cause::Limit),
        (b"work 1 1\nby 16384 0\nstop\n".as_slice(), 2, Cause::Limit),
        (
            b"work 1 2\nby 0 1\nby 0 75557863725914323419137\n".as_slice(),
            3,
            Cause::Limit,
        ),
        (
            b"work 1 2\nby 0 -75557863725914323419137\nstop\n".as_slice(),
            2,
            Cause::Limit,
        ),
        (b"work 1 2\nby 0 1\nstop\n".as_slice(), 3, Cause::Form),
        (
            b"work 1 1\nby 0 1\nby 0 1\nstop\n".as_slice(),
            3,
            Cause::Form,
        ),
        (b"work 1 1\nby 0 -0\nstop\n".as_slice(), 2, Cause::Form),
        (b"work 1 1\n".as_slice(), 2, Cause::Line),
        (b"work 1 0\ndead row 16384\n".as_slice(), 2, Cause::Limit),
        (b"work 1 0\nlayout 0\n".as_slice(), 2, Cause::Form),
    ] {
        let want = ItemFault::Refused(Refusal { line, cause });
        assert_eq!(rt; first_item(rt.alloc(), text)?, Err(want));
    }
    Ok(())
}

/// A substation and a turbine.
const PAIR: &str =
    "site 1\nmode tree\ntype 200 1\nsubstation S 0 0 1 10000\nturbine A 0 1000 100\nend site\n";

/// What is read where a verdict may stand.
fn verdict(alloc: Global, text: &[u8]) -> Result<Result<Claim, ItemFault>, Fail> {
    let site = site_of(alloc, PAIR)?;
    let bytes = Vec::from_slice(alloc, text)?;
    let mut source = MemorySource::new(bytes, 4096, Vec::new(alloc));
    let mut lines = Lines::new(alloc)?;
    Ok(read_claim(&mut lines, &mut source, &site))
}

#[test]
fn verdicts_of_a_part(rt: HostRuntime) -> Result<(), Fail> {
    let alloc = rt.alloc();
    for (text, bound) in [
        (b"open 0 stuck A\n".as_slice(), 0),
        (
            b"open 9223372036854775807 stuck A\n".as_slice(),
            9_223_372_036_854_775_807,
        ),
    ] {
        let claim = Claim::Partial { bound, stuck: 1 };
        assert_eq!(rt; verdict(alloc, text)?, Ok(claim));
    }
    for (text, cause) in [
        (b"open 1 stuck S\n".as_slice(), Cause::Layout),
        (b"open 1 stuck AA\n".as_slice(), Cause::Layout),
        (
            b"open 9223372036854775808 stuck S\n".as_slice(),
            Cause::Limit,
        ),
        (b"open -1 stuck A\n".as_slice(), Cause::Limit),
        (b"open 1 stuck\n".as_slice(), Cause::Form),
        (b"open 1 stuck \n".as_slice(), Cause::Form),
        (b"open 1 stuck A B\n".as_slice(), Cause::Form),
        (b"open 01 stuck A\n".as_slice(), Cause::Form),
        (b"open A stuck 1\n".as_slice(), Cause::Form),
        (b"open 1 left A\n".as_slice(), Cause::Form),
    ] {
        let want = ItemFault::Refused(Refusal { line: 1, cause });
        assert_eq!(rt; verdict(alloc, text)?, Err(want));
    }
    Ok(())
}
