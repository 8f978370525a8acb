//! The command line over streams that break off and fail.

mod each_call;
mod streams;

use sd_command_line::{
    GenericMapping, Notation, OpenGate, PathSpelling, RunError, ScriptCounts, ScriptOptions,
    Watched, drive, run_audit,
};
use sd_tree::Limits;
use std::alloc::Global;
use std::io;
use std::io::{Read, Write};
use std::sync::Wait;
use std::thread::Threads;

const USER: &str = "S-1-5-21-1-2-3-1001";
