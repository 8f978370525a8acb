//! Streams that fail.

use super::*;
use std::io::ErrorKind;

/// What a stream does at the call from which on it fails.
#[derive(Clone, Copy, Debug)]
enum Fault {
    Refuses,
    IsInterrupted,
    TakesNothing,
}

/// A writer that takes one byte at a call, and fails after so many calls.
#[derive(Drop)]
struct Failing {
    taken: Vec<u8>,
    calls_left: u64,
    fault: Fault,
}

impl Failing {
    fn after(alloc: Global, calls_left: u64, fault: Fault) -> Failing {
        Failing {
            taken: Vec::new(alloc),
            calls_left,
            fault,
        }
    }
}

impl Write for Failing {
    fn write(&mut self, buf: &[u8]) -> io::Result<usize> {
        if self.calls_left == 0 {
            return match self.fault {
                Fault::Refuses => Err(io::Error::from(ErrorKind::BrokenPipe)),
                Fault::IsInterrupted => Err(io::Error::from(ErrorKind::Interrupted)),
                Fault::TakesNothing => Ok(0),
            };
        }
        self.calls_left -= 1;
        let count = buf.len().min(1);
        self.taken.extend_from_slice(&buf[..count])?;
        Ok(count)
    }

    fn flush(&mut self) -> io::Result<()> {
        match self.fault {
            Fault::Refuses if self.calls_left == 0 => Err(io::Error::from(ErrorKind::BrokenPipe)),
            _ => Ok(()),
        }
    }
}

/// What the words end with over these writers.
#[derive(Drop)]
struct Streams<W: Drop, E: Drop> {
    status: u8,
    writer: W,
    errors: E,
}

fn driven<T: AllocGlobal + Threads + Wait + Sync, W: Write + Drop, E: Write + Drop>(
    rt: &T,
    words: &[&str],
    writer: W,
    errors: E,
) -> Streams<W, E> {
    let mut reader = Watched::new(io::empty());
    let (mut writer, mut errors) = (Watched::new(writer), Watched::new(errors));
    let status = drive(rt, rt.alloc(), words, &mut reader, &mut writer, &mut errors);
    Streams {
        status,
        writer: writer.into_inner(),
        errors: errors.into_inner(),
    }
}

/// What a mask that isn't read ends with.
fn refused<T: AllocGlobal + Threads + Wait + Sync>(
    rt: &T,
    calls: u64,
    fault: Fault,
) -> Streams<Failing, Vec<u8>> {
    let words = ["sdstore", "verdict", "D:", USER, "zz"];
    let writer = Failing::after(rt.alloc(), calls, fault);
    driven(rt, &words, writer, Vec::new(rt.alloc()))
}

#[test]
fn tells_of_a_writer_that_fails(rt: HostRuntime) {
    for fault in [Fault::Refuses, Fault::IsInterrupted, Fault::TakesNothing] {
        for calls in 0..11 {
            let ended = refused(&rt, calls, fault);
            assert_eq!(rt; ended.status, 3, "{fault:?} after {calls}");
            assert_eq!(rt; ended.errors.as_slice(), b"sdstore: write\n".as_slice());
            assert_eq!(rt; ended.writer.taken.len() as u64, calls, "{fault:?}");
            assert!(rt; b"fault mask\n".starts_with(ended.writer.taken.as_slice()));
        }
    }
}

// The line has eleven bytes, so the twelfth call is the flush.
#[test]
fn tells_of_a_flush_that_fails(rt: HostRuntime) {
    for (fault, status) in [(Fault::Refuses, 3), (Fault::TakesNothing, 1)] {
        let ended = refused(&rt, 11, fault);
        assert_eq!(rt; ended.status, status, "{fault:?}");
        assert_eq!(rt; ended.writer.taken.as_slice(), b"fault mask\n".as_slice());
    }
}

#[test]
fn keeps_the_status_where_errors_fail(rt: HostRuntime) {
    let errors = Failing::after(rt.alloc(), 0, Fault::Refuses);
    let unread = driven(&rt, &["sdstore", "frob"], Vec::new(rt.alloc()), errors);
    assert_eq!(rt; unread.status, 2);
    let writer = Failing::after(rt.alloc(), 0, Fault::Refuses);
    let errors = Failing::after(rt.alloc(), 0, Fault::Refuses);
    let failed = driven(&rt, &["sdstore", "--help"], writer, errors);
    assert_eq!(rt; failed.status, 3);
}
