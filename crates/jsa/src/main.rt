//! The program: the whole path from the words of the command line to the sinks. It runs a main class over a home of boot
//! classes or out of an archive, dumps classes into an archive, assembles texts into class files, and makes homes. `main`
//! hands the words of the process to `run_command`, and ends with the status of its answer.
#![tactic(auto)]

mod archive_run;
#[cfg(test)]
mod archive_tests;
#[cfg(test)]
mod asm_rows;
mod assembling;
#[cfg(test)]
mod bench;
#[cfg(test)]
mod byte_tests;
#[cfg(test)]
mod changes;
#[cfg(test)]
mod class_tests;
mod command;
#[cfg(test)]
mod command_rows;
mod dump;
#[cfg(test)]
mod end_rows;
mod ended;
#[cfg(test)]
mod example_classes;
#[cfg(test)]
mod failure_rows;
mod faults;
mod file_run;
mod folder;
mod gathering;
mod home;
#[cfg(test)]
mod home_tests;
mod lines;
#[cfg(test)]
mod looks;
#[cfg(test)]
mod run_tests;

use crate::command::run_command;
use crate::ended::{Ended, status};
use crate::lines::tell;
use jsa_files::{DiskFiles, StdSink};
use std::alloc::AllocError;
use std::env;
use std::io::ErrorKind;
use std::process::ExitCode;

// The words after the program's name. A word that isn't UTF-8 makes the words faulty, and no words are faulty too.
fn words_of(rt: &HostRuntime) -> Result<Vec<String>, AllocError> {
    let mut words = Vec::new(rt.alloc());
    match env::args(rt) {
        Ok(args) => {
            for word in args.skip(1) {
                words.push(word)?;
            }
            Ok(words)
        }
        Err(e) if e.kind() == ErrorKind::OutOfMemory => Err(AllocError),
        Err(_) => Ok(words),
    }
}

fn main(rt: HostRuntime) -> ExitCode {
    let alloc = rt.alloc();
    let mut out = StdSink::new(rt.stdout());
    let mut err = StdSink::new(rt.stderr());
    let Ok(words) = words_of(&rt) else {
        let ended = tell(alloc, Ended::Memory, b"", 0, &mut err);
        return ExitCode::from(status(ended));
    };
    let (ended, _files) = run_command(alloc, &words, DiskFiles::new(rt), &mut out, &mut err);
    ExitCode::from(status(ended))
}
