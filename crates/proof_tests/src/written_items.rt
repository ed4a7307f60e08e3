//! The items of a document, written as lines.

use cable_definitions::row::{Act, RowKind};
use cable_text::MemorySink;
use node_works::{Weights, Work};
use proof_lines::*;
use std::test::Fail;

#[test]
fn lines_of_a_document(rt: HostRuntime) -> Result<(), Fail> {
    let alloc = rt.alloc();
    let mut out = MemorySink::new(alloc, 128, Vec::new(alloc))?;
    let mut work = Work {
        node: 7,
        weights: Weights::new(alloc)?,
        act: Act::Full,
    };
    assert_eq!(rt; work.weights.push(16_383, -5), Ok(()));
    assert_eq!(rt; work.weights.push(0, 6), Ok(()));
    assert!(rt; write_budget(10, &mut out).is_ok());
    assert!(rt; write_row(RowKind::Flow, &[3], &mut out).is_ok());
    assert!(rt; write_work(&work, &mut out).is_ok());
    let want = b"budget 10\nrow flow 3\nwork 7 2\nby 16383 -5\nby 0 6\nfull\n".as_slice();
    assert_eq!(rt; out.taken(), want);
    Ok(())
}
