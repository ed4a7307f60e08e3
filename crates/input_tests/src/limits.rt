//! Sites past a limit.

use crate::cables::Cables;
use run_support::ran_with;
use std::alloc::{AllocError, Global};

/// So many bytes of one kind.
fn filled(alloc: Global, byte: u8, count: usize) -> Result<Vec<u8>, AllocError> {
    vec![in alloc; byte; count]
}

/// Whether `site` refuses the input with this note.
fn refuses(alloc: Global, input: &[u8], note: &[u8]) -> Result<bool, AllocError> {
    let site = ran_with::<Cables>(alloc, &["site"], input, &[], &[], &[])?;
    Ok(site.status == 2 && site.out.is_empty() && site.note.as_slice() == note)
}

#[test]
fn json_is_nested_less_than_128_deep(rt: HostRuntime) -> Result<(), AllocError> {
    let alloc = rt.alloc();
    let mut text = Vec::from_slice(alloc, b"{\"a\":")?;
    text.extend_from_slice(filled(alloc, b'[', 127)?.as_slice())?;
    text.extend_from_slice(filled(alloc, b']', 127)?.as_slice())?;
    text.extend_from_slice(b"}")?;
    assert!(rt; refuses(alloc, text.as_slice(), b"site refused: Form at 0\n")?);
    Ok(())
}

#[test]
fn json_has_at_most_8388608_bytes(rt: HostRuntime) -> Result<(), AllocError> {
    let alloc = rt.alloc();
    let text = filled(alloc, b'[', 8_388_609)?;
    assert!(rt; refuses(alloc, text.as_slice(), b"site refused: TooLong at 0\n")?);
    Ok(())
}

#[test]
fn a_line_behind_others_has_at_most_4096_bytes(rt: HostRuntime) -> Result<(), AllocError> {
    let alloc = rt.alloc();
    let mut text = Vec::from_slice(alloc, b"site 1\nmode tree\n")?;
    text.extend_from_slice(filled(alloc, b'x', 4_097)?.as_slice())?;
    text.extend_from_slice(b"\nend site\n")?;
    assert!(rt; refuses(alloc, text.as_slice(), b"site refused: TooLong at 3\n")?);
    Ok(())
}

/// The lines before an obstacle.
const FRONT: &[u8] = b"site 1\nmode tree\ntype 400 1\n";

#[test]
fn an_obstacle_has_3_to_1024_corners(rt: HostRuntime) -> Result<(), AllocError> {
    let alloc = rt.alloc();
    for line in [
        b"obstacle 2\n".as_slice(),
        b"obstacle 1025\n",
        b"obstacle 0\n",
        b"obstacle -3\n",
    ] {
        let mut text = Vec::from_slice(alloc, FRONT)?;
        text.extend_from_slice(line)?;
        assert!(rt; refuses(alloc, text.as_slice(), b"site refused: Range at 4\n")?);
    }
    Ok(())
}

#[test]
fn obstacles_have_at_most_1024_corners_together(rt: HostRuntime) -> Result<(), AllocError> {
    let alloc = rt.alloc();
    let mut text = Vec::from_slice(alloc, FRONT)?;
    text.extend_from_slice(b"obstacle 1024\n")?;
    for _ in 0..1_024u32 {
        text.extend_from_slice(b"corner 900000 900000\n")?;
    }
    text.extend_from_slice(b"obstacle 3\n")?;
    assert!(rt; refuses(alloc, text.as_slice(), b"site refused: TooMany at 1029\n")?);
    Ok(())
}
