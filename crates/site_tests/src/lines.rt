//! Lines, numbers and words of sources and sinks in memory.

use cable_text::*;
use std::test::Fail;

#[test]
fn lines_and_the_rest_of_a_source(rt: HostRuntime) -> Result<(), Fail> {
    let alloc = rt.alloc();
    let bytes = Vec::from_slice(alloc, b"site 1\n\nmode")?;
    let mut source = MemorySource::new(bytes, 5, Vec::new(alloc));
    let mut lines = Lines::new(alloc)?;
    let empty: &[u8] = b"";
    for (number, text) in [(1, b"site 1".as_slice()), (2, empty)] {
        assert_eq!(rt; lines.next(&mut source), Ok(Line::Text));
        assert_eq!(rt; lines.number(), number);
        assert_eq!(rt; lines.text(), text);
    }
    assert_eq!(rt; lines.peek(&mut source), Ok(Some(b'm')));
    let is_mode = match lines.rest(alloc, &mut source, 4) {
        Ok(rest) => rest.as_slice() == b"mode".as_slice(),
        Err(_) => false,
    };
    assert!(rt; is_mode);
    assert_eq!(rt; source.calls(), 4);
    Ok(())
}

#[test]
fn numbers_are_written_into_ample_room(rt: HostRuntime) -> Result<(), Fail> {
    let alloc = rt.alloc();
    let mut sink = MemorySink::new(alloc, 64, Vec::new(alloc))?;
    for value in [0, -7, 120] {
        assert_eq!(rt; push_number(value, &mut sink), Ok(()));
    }
    assert_eq!(rt; sink.taken(), b"0-7120".as_slice());
    assert_eq!(rt; sink.calls(), 3);
    Ok(())
}

#[test]
fn words_are_numbers_of_one_spelling(rt: HostRuntime) {
    for (word, want) in [
        (b"0".as_slice(), Ok(0)),
        (b"-12".as_slice(), Ok(-12)),
        (b"300".as_slice(), Err(NumberFault::Over)),
        (b"-0".as_slice(), Err(NumberFault::NotDecimal)),
        (b"007".as_slice(), Err(NumberFault::NotDecimal)),
        (b"+7".as_slice(), Err(NumberFault::NotDecimal)),
        (b"7 ".as_slice(), Err(NumberFault::NotDecimal)),
        (b"-".as_slice(), Err(NumberFault::NotDecimal)),
        (
            b"100000000000000000000000000000000000000000000000000000000000000000000".as_slice(),
            Err(NumberFault::Over),
        ),
    ] {
        assert_eq!(rt; read_number(word, -100, 100), want);
    }
}
