//! Scripts that come in pieces of every length, and that break off at every byte.
use super::plain;
use sd_lines::{RunError, Watched};
use sd_script::serve;
use std::alloc::{AllocError, Global};
use std::io;
use std::io::{ErrorKind, Read, Write};
use std::process::Abort;

/// The lines of a script, and what each is answered by. One has a carriage return, one isn't answered, two are answered
/// by several lines, the last isn't ended.
const LINES: [(&[u8], &[u8]); 10] = [
    (b"open 2 O:BAG:SYD:(A;OICI;FA;;;BA)\n", b"opened 2\n"),
    (b"# an object\n", b""),
    (b"addo /a O:BAG:SYD:(A;;FR;;;BU)\r\n", b"ok\n"),
    (
        b"check 0 /a S-1-5-21-1-2-3-1001 0x1 BU\n",
        b"seen 0 nonode\n",
    ),
    (b"publish\n", b"published 1\n"),
    (b"frob\n", b"fault words\n"),
    (
        b"check 0 /a S-1-5-21-1-2-3-1001 0x1 BU\n",
        b"seen 1 granted 0x1\n",
    ),
    (
        b"why 0 /a S-1-5-21-1-2-3-1001 0x1 BU\n",
        b"seen 1 granted 0x1\ngranted 0x1 by entry 1 (A;;FR;;;BU) as S-1-5-32-545\n\n",
    ),
    (b"why 0 /a\n", b"fault words\n\n"),
    (b"learn 0 1", b"learned 1\n"),
];

/// A reader of the script that gives so many bytes at a call, and fails where it has given so many.
#[derive(Drop)]
struct Pieces {
    script: Vec<u8>,
    at: usize,
    size: usize,
    fails_at: usize,
}

impl Read for Pieces {
    fn read(&mut self, buf: &mut [u8]) -> io::Result<usize> {
        if self.at >= self.fails_at {
            return Err(io::Error::from(ErrorKind::BrokenPipe));
        }
        let rest = self.script.get(self.at..).unwrap_or_default();
        let most = self.fails_at - self.at;
        let count = rest.len().min(self.size).min(most).min(buf.len());
        buf[..count].copy_from_slice(&rest[..count]);
        self.at = self.at.saturating_add(count);
        Ok(count)
    }
}

/// The whole script.
fn script(alloc: Global) -> Result<Vec<u8>, AllocError> {
    let mut bytes = Vec::new(alloc);
    for (line, _) in LINES {
        bytes.extend_from_slice(line)?;
    }
    Ok(bytes)
}

/// The answers to the lines of which so many bytes have the ends, and to the last where it is whole.
fn answers(alloc: Global, bytes: usize) -> Result<Vec<u8>, AllocError> {
    let mut printed = Vec::new(alloc);
    let mut end = 0usize;
    for (line, answer) in LINES {
        end = end.saturating_add(line.len());
        if end <= bytes && line.last() == Some(&b'\n') {
            printed.extend_from_slice(answer)?;
        }
    }
    Ok(printed)
}

/// The script, in pieces of so many bytes, up to a failure.
fn in_pieces(rt: &(impl Abort + AllocGlobal), size: usize, fails_at: usize) -> Pieces {
    Pieces {
        script: script(rt.alloc()).expect(rt, "memory is there"),
        at: 0,
        size,
        fails_at,
    }
}

/// How a run ended: its error, whether a stream failed, and the writer.
#[derive(Drop)]
struct Ended<W: Drop> {
    error: Option<RunError>,
    is_read_failed: bool,
    is_write_failed: bool,
    writer: W,
}

fn served<R: Read + Drop, W: Write + Drop>(alloc: Global, reader: R, writer: W) -> Ended<W> {
    let (mut reader, mut writer) = (Watched::new(reader), Watched::new(writer));
    let answer = serve(alloc, &plain(), false, &mut reader, &mut writer);
    Ended {
        error: answer.err(),
        is_read_failed: reader.failed(),
        is_write_failed: writer.failed(),
        writer: writer.into_inner(),
    }
}

#[test]
fn answers_pieces_of_every_length(rt: HostRuntime) {
    let length = script(rt.alloc()).expect(&rt, "memory is there").len();
    let mut wanted = answers(rt.alloc(), length).expect(&rt, "memory is there");
    wanted
        .extend_from_slice(b"learned 1\n")
        .expect(&rt, "memory is there");
    for size in 1..=length {
        let reader = in_pieces(&rt, size, usize::MAX);
        let ended = served(rt.alloc(), reader, Vec::new(rt.alloc()));
        assert_eq!(rt; ended.error, None, "by {size}");
        assert!(rt; ended.writer == wanted, "by {size}");
    }
}

#[test]
fn answers_what_had_ended_before_the_reader_failed(rt: HostRuntime) {
    let length = script(rt.alloc()).expect(&rt, "memory is there").len();
    for fails_at in 0..=length {
        let reader = in_pieces(&rt, 7, fails_at);
        let ended = served(rt.alloc(), reader, Vec::new(rt.alloc()));
        assert_eq!(rt; ended.error, Some(RunError::Read), "at {fails_at}");
        assert!(rt;
            ended.is_read_failed && !ended.is_write_failed,
            "at {fails_at}"
        );
        let wanted = answers(rt.alloc(), fails_at).expect(&rt, "memory is there");
        assert!(rt; ended.writer == wanted, "at {fails_at}");
    }
}

/// A writer that takes so many bytes.
#[derive(Drop)]
struct Full {
    taken: Vec<u8>,
    room: usize,
}

impl Write for Full {
    fn write(&mut self, buf: &[u8]) -> io::Result<usize> {
        let count = buf.len().min(self.room.saturating_sub(self.taken.len()));
        self.taken.extend_from_slice(&buf[..count])?;
        Ok(count)
    }

    fn flush(&mut self) -> io::Result<()> {
        Ok(())
    }
}

#[test]
fn writes_a_beginning_where_the_writer_fails(rt: HostRuntime) {
    let script = script(rt.alloc()).expect(&rt, "memory is there");
    let whole = answers(rt.alloc(), script.len()).expect(&rt, "memory is there");
    for room in 0..whole.len() {
        let writer = Full {
            taken: Vec::new(rt.alloc()),
            room,
        };
        let ended = served(rt.alloc(), script.as_slice(), writer);
        assert_eq!(rt; ended.error, Some(RunError::Write), "room for {room}");
        assert!(rt;
            ended.is_write_failed && !ended.is_read_failed,
            "room for {room}"
        );
        assert_eq!(rt; ended.writer.taken.as_slice(), &whole[..room]);
    }
}
