//! Streams that give and take one byte at a call, and that fail at each of their calls in turn.
use sd_lines::*;
use std::alloc::Global;
use std::io;
use std::io::{ErrorKind, Read, Write};
use std::process::Abort;

const SCRIPT: &[u8] = b"open 2 O:BAG:SYD:\npublish\n";

/// A call's number that no call has.
const NEVER: usize = usize::MAX;

/// What a stream does at the call at which it fails.
#[derive(Clone, Copy, Debug, PartialEq, Eq)]
enum Fault {
    Refuses,
    IsInterrupted,
    TakesNothing,
}

/// A reader of the script that gives one byte at a call, and fails at one of its calls.
#[derive(Drop)]
struct SlowReader {
    calls: usize,
    fails_at: usize,
    fault: ErrorKind,
}

impl Read for SlowReader {
    fn read(&mut self, buf: &mut [u8]) -> io::Result<usize> {
        let call = self.calls;
        self.calls = call.saturating_add(1);
        if call == self.fails_at {
            return Err(io::Error::from(self.fault));
        }
        if buf.is_empty() || call >= SCRIPT.len() {
            return Ok(0);
        }
        buf[0] = SCRIPT[call];
        Ok(1)
    }
}

/// A writer that takes one byte at a call, and fails at one of its calls.
#[derive(Drop)]
struct SlowWriter {
    taken: Vec<u8>,
    flushes: usize,
    fails_at: usize,
    fault: Fault,
}

impl SlowWriter {
    fn failing_at(alloc: Global, fails_at: usize, fault: Fault) -> SlowWriter {
        SlowWriter {
            taken: Vec::new(alloc),
            flushes: 0,
            fails_at,
            fault,
        }
    }
}

impl Write for SlowWriter {
    fn write(&mut self, buf: &[u8]) -> io::Result<usize> {
        if self.taken.len() == self.fails_at {
            return match self.fault {
                Fault::Refuses => Err(io::Error::from(ErrorKind::BrokenPipe)),
                Fault::IsInterrupted => Err(io::Error::from(ErrorKind::Interrupted)),
                Fault::TakesNothing => Ok(0),
            };
        }
        let count = buf.len().min(1);
        self.taken.extend_from_slice(&buf[..count])?;
        Ok(count)
    }

    fn flush(&mut self) -> io::Result<()> {
        self.flushes = self.flushes.saturating_add(1);
        if self.taken.len() == self.fails_at {
            return Err(io::Error::from(ErrorKind::BrokenPipe));
        }
        Ok(())
    }
}

/// What a whole input was read as, whether its reader failed, and that reader.
#[derive(Drop)]
struct Input<R: Drop> {
    answer: Result<Vec<u8>, RunError>,
    is_failed: bool,
    reader: R,
}

fn all_read<R: Read + Drop>(alloc: Global, reader: R) -> Input<R> {
    let mut reader = Watched::new(reader);
    let answer = read_whole(alloc, &mut reader);
    Input {
        answer,
        is_failed: reader.failed(),
        reader: reader.into_inner(),
    }
}

#[test]
fn reads_one_byte_at_a_time(rt: HostRuntime) {
    let reader = SlowReader {
        calls: 0,
        fails_at: NEVER,
        fault: ErrorKind::Interrupted,
    };
    let input = all_read(rt.alloc(), reader);
    assert!(rt; !input.is_failed);
    assert_eq!(rt; input.reader.calls, SCRIPT.len() + 1);
    let text = input.answer.expect(&rt, "memory is there");
    assert_eq!(rt; text.as_slice(), SCRIPT);
}

#[test]
fn ends_at_the_read_that_fails(rt: HostRuntime) {
    for fault in [ErrorKind::BrokenPipe, ErrorKind::Interrupted] {
        for fails_at in 0..=SCRIPT.len() {
            let reader = SlowReader {
                calls: 0,
                fails_at,
                fault,
            };
            let input = all_read(rt.alloc(), reader);
            assert!(rt;
                matches!(input.answer, Err(RunError::Read)),
                "at {fails_at}"
            );
            assert!(rt; input.is_failed, "at {fails_at}");
            assert_eq!(rt; input.reader.calls, fails_at + 1);
        }
    }
}

/// How a whole output was written, whether its writer failed, and that writer.
#[derive(Drop)]
struct Output {
    answer: Result<(), RunError>,
    is_failed: bool,
    writer: SlowWriter,
}

fn all_written(writer: SlowWriter, bytes: &[u8]) -> Output {
    let mut writer = Watched::new(writer);
    let answer = write_whole(&mut writer, bytes);
    Output {
        answer,
        is_failed: writer.failed(),
        writer: writer.into_inner(),
    }
}

#[test]
fn writes_one_byte_at_a_time(rt: HostRuntime) {
    let writer = SlowWriter::failing_at(rt.alloc(), NEVER, Fault::Refuses);
    let output = all_written(writer, SCRIPT);
    assert_eq!(rt; output.answer, Ok(()));
    assert!(rt; !output.is_failed);
    assert_eq!(rt; output.writer.taken.as_slice(), SCRIPT);
    assert_eq!(rt; output.writer.flushes, 1);
}

#[test]
fn ends_at_the_write_that_fails(rt: HostRuntime) {
    for fault in [Fault::Refuses, Fault::IsInterrupted, Fault::TakesNothing] {
        // The last of these calls is the flush.
        for fails_at in 0..=SCRIPT.len() {
            let writer = SlowWriter::failing_at(rt.alloc(), fails_at, fault);
            let output = all_written(writer, SCRIPT);
            assert_eq!(rt;
                output.answer,
                Err(RunError::Write),
                "{fault:?} at {fails_at}"
            );
            assert!(rt; output.is_failed, "{fault:?} at {fails_at}");
            assert_eq!(rt; output.writer.taken.as_slice(), &SCRIPT[..fails_at]);
        }
    }
}

#[test]
fn a_write_of_nothing_may_take_nothing(rt: HostRuntime) {
    let writer = SlowWriter::failing_at(rt.alloc(), NEVER, Fault::Refuses);
    let mut writer = Watched::new(writer);
    assert_eq!(rt; writer.write(b"").ok(), Some(0));
    assert!(rt; !writer.failed());
    let output = all_written(writer.into_inner(), b"");
    assert_eq!(rt; output.answer, Ok(()));
    assert!(rt; !output.is_failed);
}
