// Streams of the system as ends.
use std::io;
use std::io::{Error, ErrorKind, Read, Write};
use unit_io::{Failed, Sink, SinkFault, Source, StdSink, StdSource};

// A stream of the system whose first call is interrupted, whose second moves three bytes, whose third fails, and whose
// later ones move none.
#[derive(Drop)]
struct Unsteady {
    calls: u8,
}

impl Unsteady {
    fn next(&mut self) -> io::Result<usize> {
        self.calls = self.calls.saturating_add(1);
        match self.calls {
            1 => Err(Error::from(ErrorKind::Interrupted)),
            2 => Ok(3),
            3 => Err(Error::from(ErrorKind::BrokenPipe)),
            _ => Ok(0),
        }
    }
}

impl Read for Unsteady {
    fn read(&mut self, buf: &mut [u8]) -> io::Result<usize> {
        Ok(self.next()?.min(buf.len()))
    }
}

impl Write for Unsteady {
    fn write(&mut self, buf: &[u8]) -> io::Result<usize> {
        Ok(self.next()?.min(buf.len()))
    }

    fn flush(&mut self) -> io::Result<()> {
        self.next()?;
        Ok(())
    }
}

fn reads_again() -> bool {
    let mut source = StdSource::new(Unsteady { calls: 0 });
    let mut buf = [0; 4];
    source.read(&mut buf) == Ok(3)
        && source.read(&mut buf) == Err(Failed)
        && source.read(&mut buf) == Ok(0)
}

fn writes_again() -> bool {
    let mut sink = StdSink::new(Unsteady { calls: 0 });
    sink.write(&[1, 2, 3, 4]) == Ok(3)
        && sink.flush() == Err(SinkFault::Failed)
        && sink.write(&[4]) == Err(SinkFault::Failed)
        && sink.flush() == Ok(())
}

#[test]
fn an_interrupted_call_is_made_again(rt: HostRuntime) {
    assert!(rt; reads_again());
    assert!(rt; writes_again());
}
