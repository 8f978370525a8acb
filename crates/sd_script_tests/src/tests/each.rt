//! Inputs of every kind of line, that come in pieces of every length and break off at every byte.
use sd_lines::{RunError, Watched, *};
use std::alloc::{AllocError, Global};
use std::io;
use std::io::{ErrorKind, Read, Write};
use std::process::Abort;

/// Answers a line by its text between brackets, and one that is too long by `..`. One that begins with `!` is refused,
/// and so is one that is too long.
#[derive(Debug)]
struct Brackets;

impl AnswersLines for Brackets {
    /// Whether a line so far was refused.
    type State = bool;

    ghost answers = { λ _ was_refused line printed refused. Unit {0} };

    fn answer(
        &self,
        _: Global,
        refused: &mut bool,
        line: Option<&[u8]>,
        text: &mut Vec<u8>,
    ) -> Result<(), AllocError> {
        let Some(bytes) = line else {
            text.extend_from_slice(b"..\n")?;
            *refused = true;
            return Ok(());
        };
        text.push(b'[')?;
        text.extend_from_slice(bytes)?;
        text.extend_from_slice(b"]\n")?;
        *refused |= bytes.first() == Some(&b'!');
        Ok(())
    }
}

/// Inputs, their answers, and whether one is a refusal. Of a mark alone there is no line, and of a part of one
/// there is. UTF-16 is as RFC 2781 has it.
const INPUTS: [(Ending, &[u8], &[u8], bool); 16] = [
    (Ending::Feed, b"", b"", false),
    (Ending::Feed, b"a\nbc\n", b"[a]\n[bc]\n", false),
    (
        Ending::Feed,
        b"a\r\n\r\n\n\r\r\nb",
        b"[a]\n[]\n[]\n[\r]\n[b]\n",
        false,
    ),
    (Ending::Feed, b"a\r", b"[a\r]\n", false),
    (Ending::Feed, b"!\na\n", b"[!]\n[a]\n", true),
    (Ending::Feed, b"a\n!", b"[a]\n[!]\n", true),
    (
        Ending::Feed,
        b"\xef\xbb\xbfa\n\xef\xbb\xbfb\n",
        b"[a]\n[\xef\xbb\xbfb]\n",
        false,
    ),
    (Ending::Feed, b"\xef\xbb\xbf", b"", false),
    (Ending::Feed, b"\xef\xbb\xbf\r\n", b"[]\n", false),
    (Ending::Feed, b"\xef\xbb", b"[\xef\xbb]\n", false),
    (Ending::Feed, b"a\0b\n", b"[a\0b]\n", false),
    (
        Ending::Zero,
        b"\xef\xbb\xbfa\r\n\0\0b\r\0c",
        b"[a\r\n]\n[]\n[b\r]\n[c]\n",
        false,
    ),
    (Ending::Feed, b"\xff\xfe", b"", false),
    (
        Ending::Feed,
        b"\xff\xfea\0\r\0\n\0\n\0b\0",
        b"[a]\n[]\n[b]\n",
        false,
    ),
    (
        Ending::Feed,
        b"\xfe\xff\0!\0\n\xd8\0\0\n\0a\n",
        b"[!]\n[\xff]\n[a\xff]\n",
        true,
    ),
    (
        Ending::Zero,
        b"\xff\xfea\0\0\0\n\0\0\0",
        b"[a]\n[\n]\n",
        false,
    ),
];

/// A reader that gives so many bytes at a call, and fails where it has given so many.
#[derive(Drop)]
struct Pieces {
    input: &'static [u8],
    size: usize,
    until_failure: usize,
}

impl Read for Pieces {
    fn read(&mut self, buf: &mut [u8]) -> io::Result<usize> {
        if self.until_failure == 0 {
            return Err(io::Error::from(ErrorKind::BrokenPipe));
        }
        let count = self
            .input
            .len()
            .min(self.size)
            .min(self.until_failure)
            .min(buf.len());
        buf[..count].copy_from_slice(&self.input[..count]);
        self.input = &self.input[count..];
        self.until_failure -= count;
        Ok(count)
    }
}

/// How a run ended: its answer, whether a stream failed, and the writer.
#[derive(Drop)]
struct Ended<W: Drop> {
    answer: Result<bool, RunError>,
    is_read_failed: bool,
    is_write_failed: bool,
    writer: W,
}

fn asked<R: Read + Drop, W: Write + Drop>(
    alloc: Global,
    ending: Ending,
    reader: R,
    writer: W,
) -> Ended<W> {
    let (mut reader, mut writer) = (Watched::new(reader), Watched::new(writer));
    let form = Form {
        ending,
        skips_mark: true,
        stops_at_long: false,
        line_by_line: false,
    };
    let mut refused = false;
    let answer = match answer_lines(
        alloc,
        &Brackets,
        &mut refused,
        form,
        &mut reader,
        &mut writer,
    ) {
        Ok(()) => Ok(refused),
        Err(error) => Err(error),
    };
    Ended {
        answer,
        is_read_failed: reader.failed(),
        is_write_failed: writer.failed(),
        writer: writer.into_inner(),
    }
}

#[test]
fn answers_pieces_of_every_length(rt: HostRuntime) {
    for (ending, input, wanted, is_refused) in INPUTS {
        for size in 1..=input.len() + 1 {
            let reader = Pieces {
                input,
                size,
                until_failure: usize::MAX,
            };
            let alloc = rt.alloc();
            let ended = asked(alloc, ending, reader, Vec::new(alloc));
            assert_eq!(rt; ended.answer, Ok(is_refused), "{input:?} by {size}");
            assert_eq!(rt; ended.writer.as_slice(), wanted, "{input:?} by {size}");
        }
    }
}

/// A line that ends at the first of these bytes, and what was answered then.
const ENDS: [(usize, &[u8]); 3] = [(5, b"[a]\n[!b]\n"), (2, b"[a]\n"), (0, b"")];

#[test]
fn answers_what_had_ended_before_the_reader_failed(rt: HostRuntime) {
    for until_failure in 0..=6 {
        let reader = Pieces {
            input: b"a\n!b\nc\n",
            size: 2,
            until_failure,
        };
        let alloc = rt.alloc();
        let ended = asked(alloc, Ending::Feed, reader, Vec::new(alloc));
        assert_eq!(rt; ended.answer, Err(RunError::Read), "at {until_failure}");
        assert!(rt;
            ended.is_read_failed && !ended.is_write_failed,
            "at {until_failure}"
        );
        let row = ENDS.iter().find(|(end, _)| *end <= until_failure);
        let wanted = row.map_or(&b""[..], |(_, wanted)| *wanted);
        assert_eq!(rt; ended.writer.as_slice(), wanted, "at {until_failure}");
    }
}

/// A writer that takes so many bytes.
#[derive(Drop)]
struct Full {
    taken: Vec<u8>,
    room: usize,
}

impl Write for Full {
    fn write(&mut self, buf: &[u8]) -> io::Result<usize> {
        let count = buf.len().min(self.room.saturating_sub(self.taken.len()));
        self.taken.extend_from_slice(&buf[..count])?;
        Ok(count)
    }

    fn flush(&mut self) -> io::Result<()> {
        Ok(())
    }
}

#[test]
fn writes_a_beginning_where_the_writer_fails(rt: HostRuntime) {
    let whole = b"[a]\n[b]\n[c]\n";
    for room in 0..whole.len() {
        let reader = Pieces {
            input: b"a\nb\nc",
            size: 2,
            until_failure: usize::MAX,
        };
        let writer = Full {
            taken: Vec::new(rt.alloc()),
            room,
        };
        let ended = asked(rt.alloc(), Ending::Feed, reader, writer);
        assert_eq!(rt; ended.answer, Err(RunError::Write), "room for {room}");
        assert!(rt;
            ended.is_write_failed && !ended.is_read_failed,
            "room for {room}"
        );
        assert_eq!(rt; ended.writer.taken.as_slice(), &whole[..room]);
    }
}
