// Sources and sinks over a reader and a writer of which one call fails.
use nv_streams::{HeldSink, Sink, SinkAnswer, Source, SourceAnswer, StdSink, StdSource};
use std::alloc::Global;
use std::io;
use std::io::{ErrorKind, Read, Write};

// A reader and writer of a text. It takes two bytes a call, and in its second call fails with this error.
#[derive(Drop)]
struct Tape {
    text: io::Cursor<&'static [u8]>,
    kept: Vec<u8>,
    calls: u8,
    error: ErrorKind,
}

impl Tape {
    fn fails(&mut self) -> bool {
        self.calls = self.calls.saturating_add(1);
        self.calls == 2
    }
}

impl Read for Tape {
    fn read(&mut self, buf: &mut [u8]) -> io::Result<usize> {
        if self.fails() {
            return Err(io::Error::from(self.error));
        }
        self.text.read(buf)
    }
}

impl Write for Tape {
    fn write(&mut self, buf: &[u8]) -> io::Result<usize> {
        if self.fails() {
            return Err(io::Error::from(self.error));
        }
        let count = buf.len().min(2);
        if self.kept.extend_from_slice(&buf[..count]).is_err() {
            return Err(io::Error::from(ErrorKind::OutOfMemory));
        }
        Ok(count)
    }

    fn flush(&mut self) -> io::Result<()> {
        Ok(())
    }
}

fn make_tape(alloc: Global, error: ErrorKind) -> Tape {
    Tape {
        text: io::Cursor::new(b"abc"),
        kept: Vec::new(alloc),
        calls: 0,
        error,
    }
}

// Whether takes of two bytes answer so.
fn answers(source: &mut StdSource<Tape>, answers: &[SourceAnswer]) -> bool {
    for answer in answers {
        if source.take(&mut [0; 2]) != *answer {
            return false;
        }
    }
    true
}

// Whether takes of two bytes over a reader that fails so answer so.
fn takes(alloc: Global, error: ErrorKind, expected: &[SourceAnswer]) -> bool {
    let mut source = StdSource::make(make_tape(alloc, error));
    answers(&mut source, expected)
}

#[test]
fn a_source_fails_with_its_reader_and_goes_on(rt: HostRuntime) {
    use SourceAnswer::{Failed, Got};
    let failing = [Got(2), Failed, Got(1), Got(0)];
    assert!(rt; takes(rt.alloc(), ErrorKind::TimedOut, &failing));
    let interrupted = [Got(2), Got(1), Got(0), Got(0)];
    assert!(rt; takes(rt.alloc(), ErrorKind::Interrupted, &interrupted));
}

// Whether the first of two puts answers so, and the second one well.
fn put_twice(writer: &mut Tape, answer: SinkAnswer) -> bool {
    let mut sink = StdSink::make(writer);
    sink.put(b"abcde") == answer && matches!(sink.put(b"fg"), SinkAnswer::Done)
}

// Whether two puts over a writer that fails so answer so, and the writer has this then.
fn puts(alloc: Global, error: ErrorKind, answer: SinkAnswer, kept: &[u8]) -> bool {
    let mut writer = make_tape(alloc, error);
    put_twice(&mut writer, answer) && writer.kept.as_slice() == kept
}

#[test]
fn a_sink_fails_with_its_writer_and_goes_on(rt: HostRuntime) {
    let failed = SinkAnswer::Failed;
    assert!(rt; puts(rt.alloc(), ErrorKind::StorageFull, failed, b"abfg"));
    let done = SinkAnswer::Done;
    assert!(rt; puts(rt.alloc(), ErrorKind::Interrupted, done, b"abcdefg"));
}

// Whether two puts are held, a flush fails as its writer does, and the next one goes on.
fn put_held(writer: &mut Tape, memory: Vec<u8>) -> bool {
    let mut sink = HeldSink::over(writer, memory);
    sink.put(b"abcde") == SinkAnswer::Done
        && sink.put(b"fg") == SinkAnswer::Done
        && sink.flush() == SinkAnswer::Failed
        && sink.flush() == SinkAnswer::Done
}

// Whether they do so, and the writer has both then.
fn holds(alloc: Global) -> bool {
    let Ok(memory) = Vec::with_capacity(alloc, 8) else {
        return false;
    };
    let mut writer = make_tape(alloc, ErrorKind::StorageFull);
    put_held(&mut writer, memory) && writer.kept.as_slice() == b"abcdefg".as_slice()
}

#[test]
fn a_sink_holds_its_pieces_back_and_goes_on_where_its_writer_failed(rt: HostRuntime) {
    assert!(rt; holds(rt.alloc()));
}
