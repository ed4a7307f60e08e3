//! Words that are no command, and streams that fail.

use crate::cables::Cables;
use run_support::{FIRST, ran_with, run_on};
use std::alloc::{AllocError, Global};

/// Words that are no command.
const NO_COMMAND: [&[&str]; 28] = [
    &[],
    &[""],
    &["plan"],
    &["plan", "0"],
    &["plan", "50001"],
    &["plan", "05"],
    &["plan", "01023"],
    &["plan", "1023 "],
    &["Plan", "1023"],
    &["plan", "5", "0"],
    &["plan", "5", "17"],
    &["plan", "5", "05"],
    &["plan", "5", "-1"],
    &["plan", "5", "4", "3"],
    &["plan", "5", "5", "5", "5"],
    &["check", "check"],
    &["Check"],
    &["drill"],
    &["drill", "7", "30"],
    &["drill", "7", "0", "100"],
    &["drill", "7", "201", "100"],
    &["drill", "1000000001", "3", "5"],
    &["drill", "7", "30", "0"],
    &["drill", "7", "30", "50001"],
    &["drill", "07", "30", "5"],
    &["drill", "7", "30", "5", "5"],
    &["migrate"],
    &["--help"],
];

#[test]
fn other_words_are_usage(rt: HostRuntime) -> Result<(), AllocError> {
    let alloc = rt.alloc();
    for words in NO_COMMAND {
        let told = run_on::<Cables>(alloc, words, FIRST)?;
        assert_eq!(rt; told.status, 1);
        assert!(rt; told.out.is_empty());
        assert!(rt;
            told.note.as_slice()
                == b"usage: plan N [LANES], check, site, judge, report, drill K TURBINES N\n".as_slice()
        );
        let untold = ran_with::<Cables>(alloc, words, FIRST.as_bytes(), &[], &[], &[1])?;
        assert_eq!(rt; untold.status, 8);
        assert!(rt; untold.note.as_slice() == b"write fault\n".as_slice());
        let silent = ran_with::<Cables>(alloc, words, FIRST.as_bytes(), &[], &[], &[1, 2])?;
        assert_eq!(rt; silent.status, 8);
        assert!(rt; silent.note.is_empty());
    }
    Ok(())
}

#[test]
fn a_refusal_that_is_not_noted_is_a_write_fault(rt: HostRuntime) -> Result<(), AllocError> {
    let alloc = rt.alloc();
    for words in [
        ["plan", "1023"].as_slice(),
        &["check"],
        &["site"],
        &["judge"],
    ] {
        let untold = ran_with::<Cables>(alloc, words, b"", &[], &[], &[1])?;
        assert_eq!(rt; untold.status, 8);
        assert!(rt; untold.out.is_empty());
        assert!(rt; untold.note.ends_with(b"write fault\n"));
    }
    Ok(())
}

/// The commands with an input that each does its work on.
fn inputs(alloc: Global) -> Result<Vec<(&'static [&'static str], Vec<u8>)>, AllocError> {
    let plan = run_on::<Cables>(alloc, &["plan", "1023"], FIRST)?;
    let mut inputs: Vec<(&'static [&'static str], Vec<u8>)> = Vec::new(alloc);
    inputs.push((&["plan", "1023"], Vec::from_slice(alloc, FIRST.as_bytes())?))?;
    inputs.push((&["check"], Vec::from_slice(alloc, plan.out.as_slice())?))?;
    inputs.push((&["report"], plan.out))?;
    inputs.push((&["site"], Vec::from_slice(alloc, FIRST.as_bytes())?))?;
    let mut judged = Vec::from_slice(alloc, FIRST.as_bytes())?;
    judged.extend_from_slice(b"layout 1\ncable A S 0\n")?;
    inputs.push((&["judge"], judged))?;
    Ok(inputs)
}

#[test]
fn an_input_that_fails_is_a_read_fault(rt: HostRuntime) -> Result<(), AllocError> {
    let alloc = rt.alloc();
    for (words, input) in inputs(alloc)? {
        let mut ended = false;
        for pull in 1..u64::MAX {
            let read = ran_with::<Cables>(alloc, words, input.as_slice(), &[pull], &[], &[])?;
            if read.status == 0 {
                // No more pulls are needed.
                ended = pull > 4;
                break;
            }
            assert_eq!(rt; read.status, 7);
            assert!(rt; read.out.is_empty());
            assert!(rt; read.note.as_slice() == b"read fault\n".as_slice());
        }
        assert!(rt; ended);
    }
    Ok(())
}

#[test]
fn an_output_that_fails_is_a_write_fault(rt: HostRuntime) -> Result<(), AllocError> {
    let alloc = rt.alloc();
    for (words, input) in inputs(alloc)? {
        let whole = ran_with::<Cables>(alloc, words, input.as_slice(), &[], &[], &[])?;
        assert_eq!(rt; whole.status, 0);
        let mut ended = false;
        for push in 1..u64::MAX {
            let cut = ran_with::<Cables>(alloc, words, input.as_slice(), &[], &[push], &[])?;
            if cut.status == 0 {
                // No more pushes are needed.
                assert!(rt; cut.out.as_slice() == whole.out.as_slice());
                assert!(rt; cut.note.is_empty());
                ended = push > 1;
                break;
            }
            assert_eq!(rt; cut.status, 8);
            assert!(rt; whole.out.starts_with(cut.out.as_slice()), "push {push}");
            assert!(rt; cut.out.len() < whole.out.len(), "push {push}");
            assert!(rt; cut.note.as_slice() == b"write fault\n".as_slice());
        }
        assert!(rt; ended);
    }
    Ok(())
}

/// How many lines end in these bytes.
fn line_count(bytes: &[u8]) -> usize {
    bytes.iter().filter(|byte| **byte == b'\n').count()
}

#[test]
fn a_plan_is_written_line_by_line(rt: HostRuntime) -> Result<(), AllocError> {
    let alloc = rt.alloc();
    let whole = run_on::<Cables>(alloc, &["plan", "10"], FIRST)?;
    let lines = line_count(whole.out.as_slice());
    for push in 1..=lines {
        let cut = ran_with::<Cables>(
            alloc,
            &["plan", "10"],
            FIRST.as_bytes(),
            &[],
            &[push as u64],
            &[],
        )?;
        assert_eq!(rt; cut.status, 8, "{push}");
        assert!(rt; whole.out.starts_with(cut.out.as_slice()), "{push}");
        assert_eq!(rt; line_count(cut.out.as_slice()), push - 1, "{push}");
    }
    Ok(())
}
