//! The program `sdstore`: the command line of `sd_command_line` over the words and the streams of the process.
#![tactic(auto)]

mod terminal;

use sd_command_line::{
    Watched, accounts_file, drive, drive_named, reads_input, schema_file, tell_types_fault,
    with_guids,
};
use std::env::Env;
use std::io::{ErrorKind, IsTerminal, Read, Write};
use std::process::ExitCode;
use std::rt::Files;
use std::sync::Wait;
use std::thread::Threads;
use std::{env, fs, io};
use terminal::{shows_colours, with_option};

fn main(rt: HostRuntime) -> ExitCode {
    match run(&rt, rt.stdin(), rt.stdout(), &mut rt.stderr()) {
        Ok(status) => ExitCode::from(status),
        Err(error) if error.kind() == ErrorKind::OutOfMemory => {
            let _ = eprintln!(rt; "sdstore: memory");
            ExitCode::from(3)
        }
        Err(_) => {
            let _ = eprintln!(rt; "sdstore: the command line isn't Unicode");
            ExitCode::from(2)
        }
    }
}

// The status with which the program ends. An `Err` says that there are no words: an argument isn't
// Unicode, or there is no memory for them or for the files that they name.
fn run<T, R, W, E>(rt: &T, input: R, output: W, errors: &mut E) -> io::Result<u8>
where
    T: Env + Files + AllocGlobal + Threads + Wait + Sync,
    R: Read + IsTerminal + Drop,
    W: Write + IsTerminal + Drop,
    E: Write + IsTerminal,
{
    let alloc = rt.alloc();
    let texts: Vec<String> = env::args(rt)?.collect(alloc)?;
    let mut words: Vec<&str> = texts.iter().map(|text| text.as_str()).collect(alloc)?;
    if errors.is_terminal() {
        words = with_option(alloc, words, "--caret");
    }
    if shows_colours(rt, &output) {
        words = with_option(alloc, words, "--color");
    }
    if input.is_terminal() && reads_input(words.as_slice()) {
        // Where nobody can be told, nobody is.
        let _ = errors.write_all(b"sdstore: reads the standard input, up to its end\n");
    }
    let words = words.as_slice();
    let Some(file) = schema_file(words) else {
        return answer(rt, words, input, output, errors);
    };
    let Some(text) = read_file(rt, "--schema", file, errors)? else {
        return Ok(3);
    };
    match with_guids(alloc, words, text.as_slice()) {
        Ok(texts) => {
            let words: Vec<&str> = texts.iter().map(|text| text.as_str()).collect(alloc)?;
            answer(rt, words.as_slice(), input, output, errors)
        }
        Err(fault) => Ok(tell_types_fault(
            alloc,
            words,
            fault,
            &mut Watched::new(output),
            &mut Watched::new(errors),
        )),
    }
}

// The status after the answer to words whose object types are GUIDs. An `Err` says that there is no memory for the
// accounts file.
fn answer<T, R, W, E>(rt: &T, words: &[&str], input: R, output: W, errors: &mut E) -> io::Result<u8>
where
    T: Files + AllocGlobal + Threads + Wait + Sync,
    R: Read + Drop,
    W: Write + Drop,
    E: Write,
{
    let alloc = rt.alloc();
    let Some(file) = accounts_file(words) else {
        let (mut input, mut output) = (Watched::new(input), Watched::new(output));
        return Ok(drive(
            rt,
            alloc,
            words,
            &mut input,
            &mut output,
            &mut Watched::new(errors),
        ));
    };
    let Some(text) = read_file(rt, "--accounts", file, errors)? else {
        return Ok(3);
    };
    let (mut input, mut output) = (Watched::new(input), Watched::new(output));
    let text = text.as_slice();
    Ok(drive_named(
        rt,
        alloc,
        words,
        text,
        &mut input,
        &mut output,
        &mut Watched::new(errors),
    ))
}

// The bytes of the file that an option names; none, as the errors then say, where it can't be read. An `Err` says that
// there is no memory for them.
fn read_file<T: Files + AllocGlobal, E: Write>(
    rt: &T,
    option: &str,
    file: &str,
    errors: &mut E,
) -> io::Result<Option<Vec<u8>>> {
    match fs::read(rt, file) {
        Ok(text) => Ok(Some(text)),
        Err(error) if error.kind() == ErrorKind::OutOfMemory => Err(error),
        Err(_) => {
            let _ = errors.write_all(b"sdstore: ");
            let _ = errors.write_all(option.as_bytes());
            let _ = errors.write_all(b": the file can't be read\n");
            Ok(None)
        }
    }
}
