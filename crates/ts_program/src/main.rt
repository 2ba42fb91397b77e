//! The typesetter: `ts_program typeset NAME [--kanji euc|jis|sjis]` sets `NAME.tex`, with the DVI
//! file on standard output and the report on standard error.
#![tactic(auto)]

use std::process::ExitCode;
use std::{env, io};
use ts_job::run;
use ts_outside::{DiskFiles, StreamSink};

// The statuses where no job was run: memory for the words was refused, or the runtime refused them.
const NO_MEMORY: u8 = 5;

const NO_WORDS: u8 = 8;

fn words_and_files(rt: &HostRuntime) -> io::Result<(Vec<String>, DiskFiles<HostRuntime>)> {
    let words = env::args(rt)?.collect(rt.alloc())?;
    Ok((words, DiskFiles::new(rt.clone()?, rt.alloc())))
}

fn main(rt: HostRuntime) -> ExitCode {
    let (words, mut files) = match words_and_files(&rt) {
        Ok(begun) => begun,
        Err(error) if error.kind() == io::ErrorKind::OutOfMemory => {
            return ExitCode::from(NO_MEMORY);
        }
        Err(_) => return ExitCode::from(NO_WORDS),
    };
    let mut out = StreamSink::new(io::writer(&rt));
    let mut report = StreamSink::new(rt.stderr());
    let outcome = run(rt.alloc(), &words, &mut files, &mut out, &mut report);
    ExitCode::from(outcome.status())
}
