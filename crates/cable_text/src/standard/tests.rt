use super::{StdSink, StdSource};
use crate::stream::{Failed, Sink, Source};
use std::io;
use std::io::{Read, Write};

// Takes at most so many bytes a call.
#[derive(Drop)]
struct Narrow {
    got: Vec<u8>,
    most: usize,
}

impl Write for Narrow {
    fn write(&mut self, buf: &[u8]) -> io::Result<usize> {
        let most = buf.len().min(self.most);
        self.got.extend_from_slice(&buf[..most])?;
        Ok(most)
    }

    fn flush(&mut self) -> io::Result<()> {
        Ok(())
    }
}

// Gives one byte, fails once, and is at its end.
#[derive(Drop)]
struct Broken {
    calls: u8,
}

impl Read for Broken {
    fn read(&mut self, buf: &mut [u8]) -> io::Result<usize> {
        self.calls = self.calls.saturating_add(1);
        if self.calls == 2 {
            return Err(io::Error::from(io::ErrorKind::WouldBlock));
        }
        if self.calls > 2 || buf.is_empty() {
            return Ok(0);
        }
        buf[0] = b's';
        Ok(1)
    }
}

#[test]
fn a_sink_passes_its_bytes_on_until_nothing_is_taken(rt: HostRuntime) {
    let empty: &[u8] = b"";
    for (most, want, taken, failed) in [
        (3, Ok(()), b"turbine".as_slice(), 0),
        (0, Err(Failed), empty, 1),
    ] {
        let mut sink = StdSink::new(Narrow {
            got: Vec::new(rt.alloc()),
            most,
        });
        assert_eq!(rt; sink.push(b"turbine"), want);
        assert_eq!(rt; sink.writer.got.as_slice(), taken);
        assert_eq!(rt; sink.failed, failed);
    }
}

#[test]
fn a_source_counts_the_errors_of_its_reader(rt: HostRuntime) {
    let mut source = StdSource::new(Broken { calls: 0 });
    let mut buf = [0u8; 4];
    for (want, failed) in [(Ok(1), 0), (Err(Failed), 1), (Ok(0), 1)] {
        assert_eq!(rt; source.pull(&mut buf), want);
        assert_eq!(rt; source.failed, failed);
    }
    assert_eq!(rt; buf[0], b's');
}
