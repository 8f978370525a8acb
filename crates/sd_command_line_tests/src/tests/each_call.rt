//! Streams that give and take one byte at a call, and fail at each of their calls in turn. So it is of a script and of
//! an audit, and of the commands for them.

use super::*;
use std::io::ErrorKind;

/// What carries out a script.
#[derive(Clone, Copy, Debug)]
enum Way {
    Script,
    Audit,
    ScriptCommand,
    AuditCommand,
}

const WAYS: [Way; 4] = [
    Way::Script,
    Way::Audit,
    Way::ScriptCommand,
    Way::AuditCommand,
];

const SCRIPT: &str = "\
open 2 O:BAG:SYD:(A;OICI;FA;;;BA)
addo /a O:BAG:SYD:(A;;FR;;;BU)
check 0 /a S-1-5-21-1-2-3-1001 0x1 BU
publish
tell
learn 0 1
check 0 /a S-1-5-21-1-2-3-1001 0x1 BU
addo /a O:BAG:SYD:(A;;FR;;;BU)
show 0 /a
";

const SCRIPT_OUTPUT: &str = "\
opened 2
ok
seen 0 nonode
published 1
told 1
learned 1
seen 1 granted 0x1
refused 3 Exists
seen 1 shown O:BAG:SYD:AI(A;;FR;;;BU)(A;ID;FA;;;BA)
";

const AUDIT: &str = "\
open 1 O:BAG:SYD:
addo /a O:BAG:SYD:(A;;FR;;;BU)
check 0 /a S-1-5-21-1-2-3-1001 FR BU
check 0 /b S-1-5-21-1-2-3-1001 0x1
";

const AUDIT_OUTPUT: &str = "\
opened 2
ok
published 1
told 1
seen 1 granted 0x120089
seen 1 nonode
";

impl Way {
    fn script(self) -> &'static str {
        match self {
            Way::Script | Way::ScriptCommand => SCRIPT,
            Way::Audit | Way::AuditCommand => AUDIT,
        }
    }

    fn output(self) -> &'static str {
        match self {
            Way::Script | Way::ScriptCommand => SCRIPT_OUTPUT,
            Way::Audit | Way::AuditCommand => AUDIT_OUTPUT,
        }
    }

    /// Carries a script out over the streams: `well`, or what went wrong.
    fn ended<T: AllocGlobal + Threads + Wait + Sync, R: Read, W: Write>(
        self,
        rt: &T,
        reader: &mut Watched<R>,
        writer: &mut Watched<W>,
    ) -> &'static str {
        match self {
            Way::Script => by_script(rt.alloc(), reader, writer),
            Way::Audit => by_audit(rt, reader, writer),
            Way::ScriptCommand => driven(rt, &["sdstore", "script"], reader, writer),
            Way::AuditCommand => driven(rt, &["sdstore", "audit", "2"], reader, writer),
        }
    }
}

fn plain() -> ScriptOptions {
    ScriptOptions {
        mapping: GenericMapping::file(),
        limits: Limits::standard(),
        notation: Notation::plain(PathSpelling::Plain),
    }
}

fn by_script<R: Read, W: Write>(
    alloc: Global,
    reader: &mut Watched<R>,
    writer: &mut Watched<W>,
) -> &'static str {
    name_of(sd_command_line::run(alloc, &plain(), reader, writer))
}

fn by_audit<T: AllocGlobal + Threads + Wait + Sync, R: Read, W: Write>(
    rt: &T,
    reader: &mut Watched<R>,
    writer: &mut Watched<W>,
) -> &'static str {
    name_of(run_audit(rt, rt.alloc(), 2, &plain(), reader, writer, &OpenGate))
}

fn name_of(ended: Result<ScriptCounts, RunError>) -> &'static str {
    match ended {
        Ok(_) => "well",
        Err(error) => error.name(),
    }
}

/// By the command: the name of the error that belongs to its status and to what it writes to the errors.
fn driven<T: AllocGlobal + Threads + Wait + Sync, R: Read, W: Write>(
    rt: &T,
    words: &[&str],
    reader: &mut Watched<R>,
    writer: &mut Watched<W>,
) -> &'static str {
    let mut errors = Watched::new(Vec::new(rt.alloc()));
    let status = drive(rt, rt.alloc(), words, reader, writer, &mut errors);
    let errors = errors.into_inner();
    let rows: [(u8, &[u8], &'static str); 4] = [
        (0, b"", "well"),
        (3, b"sdstore: read\n", "Read"),
        (3, b"sdstore: too long\n", "TooLong"),
        (3, b"sdstore: write\n", "Write"),
    ];
    for (due, text, name) in rows {
        if status == due && errors.as_slice() == text {
            return name;
        }
    }
    "another status, or other errors"
}

/// A call's number that no call has.
const NEVER: usize = usize::MAX;

/// A reader that gives one byte at a call, and fails at one of its calls.
#[derive(Drop)]
struct SlowReader {
    text: &'static [u8],
    calls: usize,
    fails_at: usize,
    fault: ErrorKind,
}

impl SlowReader {
    fn failing_at(way: Way, fails_at: usize, fault: ErrorKind) -> SlowReader {
        SlowReader {
            text: way.script().as_bytes(),
            calls: 0,
            fails_at,
            fault,
        }
    }
}

impl Read for SlowReader {
    fn read(&mut self, buf: &mut [u8]) -> io::Result<usize> {
        let call = self.calls;
        self.calls = call.saturating_add(1);
        if call == self.fails_at {
            return Err(io::Error::from(self.fault));
        }
        if buf.is_empty() || call >= self.text.len() {
            return Ok(0);
        }
        buf[0] = self.text[call];
        Ok(1)
    }
}

/// What a writer does at the call at which it fails.
#[derive(Clone, Copy, Debug, PartialEq, Eq)]
enum Fault {
    Refuses,
    IsInterrupted,
    TakesNothing,
}

/// A writer that takes one byte at a call, and fails at one of its calls.
#[derive(Drop)]
struct SlowWriter {
    taken: Vec<u8>,
    fails_at: usize,
    fault: Fault,
}

impl SlowWriter {
    fn failing_at(alloc: Global, fails_at: usize, fault: Fault) -> SlowWriter {
        SlowWriter {
            taken: Vec::new(alloc),
            fails_at,
            fault,
        }
    }
}

impl Write for SlowWriter {
    fn write(&mut self, buf: &[u8]) -> io::Result<usize> {
        if self.taken.len() == self.fails_at {
            return match self.fault {
                Fault::Refuses => Err(io::Error::from(ErrorKind::BrokenPipe)),
                Fault::IsInterrupted => Err(io::Error::from(ErrorKind::Interrupted)),
                Fault::TakesNothing => Ok(0),
            };
        }
        let count = buf.len().min(1);
        self.taken.extend_from_slice(&buf[..count])?;
        Ok(count)
    }

    fn flush(&mut self) -> io::Result<()> {
        if self.taken.len() == self.fails_at {
            return Err(io::Error::from(ErrorKind::BrokenPipe));
        }
        Ok(())
    }
}

#[test]
fn one_byte_at_a_time_makes_no_difference(rt: HostRuntime) {
    for way in WAYS {
        let mut reader = Watched::new(SlowReader::failing_at(way, NEVER, ErrorKind::Interrupted));
        let mut writer = Watched::new(SlowWriter::failing_at(rt.alloc(), NEVER, Fault::Refuses));
        assert_eq!(rt; way.ended(&rt, &mut reader, &mut writer), "well", "{way:?}");
        let taken = writer.into_inner().taken;
        assert_eq!(rt; taken.as_slice(), way.output().as_bytes(), "{way:?}");
    }
}

#[test]
fn a_read_that_fails_ends_the_run(rt: HostRuntime) {
    for way in WAYS {
        for fault in [ErrorKind::BrokenPipe, ErrorKind::Interrupted] {
            for fails_at in 0..=way.script().len() {
                let mut reader = Watched::new(SlowReader::failing_at(way, fails_at, fault));
                let mut writer = Watched::new(Vec::new(rt.alloc()));
                let name = way.ended(&rt, &mut reader, &mut writer);
                assert_eq!(rt; name, "Read", "{way:?} at {fails_at}");
                assert!(rt; writer.into_inner().is_empty(), "{way:?} at {fails_at}");
            }
        }
    }
}

// The last of these calls is the flush.
#[test]
fn a_write_that_fails_ends_the_run(rt: HostRuntime) {
    for way in WAYS {
        for fault in [Fault::Refuses, Fault::IsInterrupted, Fault::TakesNothing] {
            for fails_at in 0..=way.output().len() {
                let mut reader = Watched::new(way.script().as_bytes());
                let slow = SlowWriter::failing_at(rt.alloc(), fails_at, fault);
                let mut writer = Watched::new(slow);
                let name = way.ended(&rt, &mut reader, &mut writer);
                assert_eq!(rt; name, "Write", "{way:?}, {fault:?} at {fails_at}");
                let taken = writer.into_inner().taken;
                let output = way.output().as_bytes();
                assert!(rt;
                    taken.len() == fails_at && output.starts_with(&taken),
                    "{way:?} at {fails_at}"
                );
            }
        }
    }
}
