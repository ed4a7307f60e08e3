//! Sites in both forms that `site` writes or refuses.

use crate::cables::Cables;
use run_support::{FIRST, Ran, answers, changed, ran_with, wrong_answer};
use std::alloc::{AllocError, Global};

/// The first site as JSON.
const FIRST_JSON: &str =
    "{\"site\":1,\"mode\":\"tree\",\"types\":[{\"capacity\":400,\"price\":100}],\"points\":[{\"kind\":\"substation\",\"name\":\"S\",\"x\":0,\"y\":0,\"feeders\":4,\"power\":10000},{\"kind\":\"turbine\",\"name\":\"A\",\"x\":300,\"y\":400,\"power\":100}]}";

/// The site with a line of every kind.
const EVERY_LINE: &str =
    "site 1\nmode strings\ntype 200 100\ntype 400 170\nsubstation North 0 0 4 10000\nturbine T1 0 1000 100\nturbine T2 -300 1400 100\nbend K 200 500\nobstacle 4\ncorner -100 400\ncorner 100 400\ncorner 100 600\ncorner -100 600\ncharge K T1 7500\nclosed North T2\nend site\n";

/// Inputs, their status, and what is written or noted.
const SITES: [(&str, u8, &str); 17] = [
    (FIRST, 0, FIRST),
    (FIRST_JSON, 0, FIRST),
    (EVERY_LINE, 0, EVERY_LINE),
    // What follows the site plays no part.
    (
        "site 1\nmode tree\ntype 400 1\nend site\nwhatever follows",
        0,
        "site 1\nmode tree\ntype 400 1\nend site\n",
    ),
    ("", 2, "site refused: Form at 0\n"),
    ("s", 2, "site refused: Form at 1\n"),
    (
        "site 1\nmode tree\ntype 400 1\nend site",
        2,
        "site refused: Form at 4\n",
    ),
    (
        "site 1\nmode tree\nend site\n",
        2,
        "site refused: Form at 3\n",
    ),
    (
        "site 1\nmode tree\ntype 400 100\nsubstation S 0 0 4 10000\nturbine A 007 0 100\nend site\n",
        2,
        "site refused: Shape at 5\n",
    ),
    (
        "site 1\nmode tree\ntype 400 100\nsubstation S 0 0 4 10000\nturbine A 007 0 100",
        2,
        "site refused: Form at 5\n",
    ),
    (
        "site 1\nmode tree\ntype 400 1\nbend A 0 0\nbend B 0 0\nend site\n",
        2,
        "site refused: SamePlace at 5\n",
    ),
    (
        "site 1\nmode tree\ntype 400 1\nbend A 0 0\nbend A 1 0\nend site\n",
        2,
        "site refused: SameName at 5\n",
    ),
    (
        "site 1\nmode tree\ntype 400 1\nturbine A? 0 0 1\nend site\n",
        2,
        "site refused: BadName at 4\n",
    ),
    // A bend within the obstacle is found at its last corner.
    (
        "site 1\nmode tree\ntype 400 1\nsubstation S 0 0 4 10000\nturbine A 0 1000 100\nbend K 200 500\nbend Z 100 500\nobstacle 4\ncorner -100 400\ncorner 100 400\ncorner 100 600\ncorner -100 600\nend site\n",
        2,
        "site refused: InObstacle at 12\n",
    ),
    (
        "site 2\nmode tree\ntype 400 1 0\nend site\n",
        2,
        "site refused: Range at 1\n",
    ),
    ("{\"site\":1}", 2, "site refused: Shape at 1\n"),
    ("[", 2, "site refused: Form at 0\n"),
];

#[test]
fn sites_are_written_or_refused(rt: HostRuntime) -> Result<(), AllocError> {
    let wrong = wrong_answer::<Cables>(rt.alloc(), &["site"], &SITES)?;
    assert_eq!(rt; wrong, None);
    Ok(())
}

/// Runs `site` on bytes.
fn rewritten(alloc: Global, input: &[u8]) -> Result<Ran, AllocError> {
    ran_with::<Cables>(alloc, &["site"], input, &[], &[], &[])
}

#[test]
fn a_number_in_json_is_whole(rt: HostRuntime) -> Result<(), AllocError> {
    let alloc = rt.alloc();
    let text = changed(alloc, FIRST_JSON, "300", "300.0")?;
    let note = "site refused: Shape at 5\n";
    assert!(rt; answers::<Cables>(alloc, &["site"], text.as_str(), 2, note)?);
    let cut = rewritten(alloc, &FIRST_JSON.as_bytes()[..40])?;
    assert_eq!(rt; cut.status, 2);
    assert!(rt; cut.note.as_slice() == b"site refused: Form at 0\n".as_slice());
    Ok(())
}

/// A site of so many bends in a row, in lines.
fn bends(alloc: Global, count: u32) -> Result<Vec<u8>, AllocError> {
    let mut text = Vec::from_slice(alloc, b"site 1\nmode tree\ntype 400 1\n")?;
    for bend in 0..count {
        text.extend_from_slice(b"bend b")?;
        push_number(&mut text, bend)?;
        text.extend_from_slice(b" ")?;
        push_number(&mut text, bend)?;
        text.extend_from_slice(b" 0\n")?;
    }
    text.extend_from_slice(b"end site\n")?;
    Ok(text)
}

/// Appends a number below 1,000.
fn push_number(text: &mut Vec<u8>, number: u32) -> Result<(), AllocError> {
    if number >= 100 {
        text.push(b'0' + (number / 100 % 10) as u8)?;
    }
    if number >= 10 {
        text.push(b'0' + (number / 10 % 10) as u8)?;
    }
    text.push(b'0' + (number % 10) as u8)?;
    Ok(())
}

#[test]
fn a_site_has_at_most_256_points(rt: HostRuntime) -> Result<(), AllocError> {
    let alloc = rt.alloc();
    let most = bends(alloc, 256)?;
    let site = rewritten(alloc, most.as_slice())?;
    assert_eq!(rt; site.status, 0);
    assert!(rt; site.out.as_slice() == most.as_slice());
    let more = bends(alloc, 257)?;
    let site = rewritten(alloc, more.as_slice())?;
    assert_eq!(rt; site.status, 2);
    assert!(rt; site.note.as_slice() == b"site refused: TooMany at 260\n".as_slice());
    Ok(())
}

#[test]
fn a_line_has_at_most_4096_bytes(rt: HostRuntime) -> Result<(), AllocError> {
    let alloc = rt.alloc();
    let mut line = Vec::from_slice(alloc, b"site 1\nmode ")?;
    for _ in 0..4091u32 {
        line.push(b'x')?;
    }
    line.push(b'\n')?;
    let site = rewritten(alloc, line.as_slice())?;
    assert!(rt; site.note.as_slice() == b"site refused: Shape at 2\n".as_slice());
    line.pop();
    line.extend_from_slice(b"x\n")?;
    let site = rewritten(alloc, line.as_slice())?;
    assert!(rt; site.note.as_slice() == b"site refused: TooLong at 2\n".as_slice());
    Ok(())
}
