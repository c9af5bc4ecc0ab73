//! The program `affine`: its words, standard input and output go to the top call, its message to standard error, and its
//! ending becomes the exit status.
#![tactic(auto)]

use affine_driver::{Ending, affine_main};
use affine_io::{StdSink, StdSource};
use dma_engine::OpenGate;
use std::alloc::AllocError;
use std::process::ExitCode;
use std::rt::Env;
use std::sync::Wait;
use std::thread::Threads;
use std::{env, io};

/// The ending of a call with the words behind the program's name. Words that are no text ask for no command; memory that is wanting
/// while they are read is told apart from them.
fn answer<R: Env + AllocGlobal + Input + Print + Threads + Wait + Sync>(
    rt: &R,
) -> Result<Ending, AllocError> {
    let args = match env::args(rt) {
        Ok(args) => args,
        Err(fault) => {
            return match fault.kind() {
                io::ErrorKind::OutOfMemory => Err(AllocError),
                _ => Ok(Ending::Words),
            };
        }
    };
    let owned: Vec<String> = args.collect(rt.alloc())?;
    let mut words: Vec<&str> = Vec::new(rt.alloc());
    for word in owned.iter().skip(1) {
        words.push(word.as_str())?;
    }
    let mut source = StdSource::new(rt.reader());
    let mut sink = StdSink::new(io::writer(rt));
    Ok(affine_main(
        rt,
        rt.alloc(),
        words.as_slice(),
        &mut source,
        &mut sink,
        &OpenGate,
    ))
}

fn main(rt: HostRuntime) -> ExitCode {
    let ending = match answer(&rt) {
        Ok(ending) => ending,
        Err(AllocError) => Ending::Memory,
    };
    if !matches!(ending, Ending::Done) {
        let _ = eprintln!(rt; "{ending}");
    }
    ExitCode::from(ending.status())
}
