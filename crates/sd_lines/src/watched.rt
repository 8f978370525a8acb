//! A stream that remembers whether a call to it failed.

ghost use Rattle.std.specs.Prelude.{◌≡◌, ◌||◌, false, is_err};
ghost use Rattle.std.specs.Io.{ReadsAtMost, WritesAtMost};
ghost use Rattle.std.specs.Io.KnownBytes.{ReadConsumes, WriteAppends, Keeps};
ghost use Rattle.sd_lines.specs.Watched.{inner_of, has_failed, is_lost};

use std::io;
use std::io::{Read, Write};

/// A stream that passes each call and its result through. It has failed from the first call on that
/// returns an error, or takes none of at least one byte.
#[derive(Debug, Drop)]
pub struct Watched<T> {
    inner: T,
    failed: bool,
}

impl<T> Watched<T> {
    /// This stream, watched from now on.
    pub fn new(inner: T) -> Watched<T>
        ensures inner { inner_of result ≡ inner }
        ensures failed { has_failed result ≡ false }
    {
        Watched {
            inner,
            failed: false,
        }
    }

    /// Whether a call to the stream has failed: it returned an error, an interruption too, or it was
    /// given at least one byte to write and took none.
    pub fn failed(&self) -> bool
        ensures { result ≡ has_failed self.now }
    {
        self.failed
    }

    /// The stream, no longer watched.
    pub fn into_inner(self) -> T
        ensures { result ≡ inner_of self }
    {
        self.inner
    }
}

impl<R: Read> Read for Watched<R> {
    ghost remaining = { λ watched. R.remaining (inner_of watched) };

    fn read(&mut self, buf: &mut [u8]) -> io::Result<usize>
        ensures bound { ReadsAtMost result buf.new }
        ensures bytes { ReadConsumes
            (R.remaining (inner_of self.old)) (R.remaining (inner_of self.new)) result buf.new }
        ensures failed { has_failed self.new ≡ (has_failed self.old || is_err result) }
    {
        let answer = self.inner.read(buf);
        self.failed |= answer.is_err();
        answer
    }
}

impl<W: Write> Write for Watched<W> {
    ghost contents = { λ watched. W.contents (inner_of watched) };

    fn write(&mut self, buf: &[u8]) -> io::Result<usize>
        ensures bound { WritesAtMost result buf.now }
        ensures bytes { WriteAppends
            (W.contents (inner_of self.old)) (W.contents (inner_of self.new)) result buf.now }
        ensures failed { has_failed self.new ≡ (has_failed self.old || is_lost result buf.now) }
    {
        let answer = self.inner.write(buf);
        self.failed |= match answer {
            Ok(taken) => taken == 0 && !buf.is_empty(),
            Err(_) => true,
        };
        answer
    }

    fn flush(&mut self) -> io::Result<()>
        ensures bytes { Keeps (W.contents (inner_of self.old)) (W.contents (inner_of self.new)) }
        ensures failed { has_failed self.new ≡ (has_failed self.old || is_err result) }
    {
        let answer = self.inner.flush();
        self.failed |= answer.is_err();
        answer
    }
}
