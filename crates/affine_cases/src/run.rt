// One run of the top call.
use crate::case::{Case, Given};
use affine_driver::{Ending, affine_main};
use affine_io::{MemSink, MemSource};
use dma_engine::OpenGate;
use std::alloc::{AllocError, Global};
use std::rt::Files;
use std::sync::Wait;
use std::thread::Threads;
use std::{fs, io};

/// How many cases ran, and how many differ from what they must come to.
#[derive(Clone, Copy)]
pub struct Totals {
    pub runs: u64,
    pub differ: u64,
}

/// The room of the sink: more than any case writes.
const ROOM: usize = 16_777_216;

/// Whether an ending and what went out are those of the case; where not, a line says which differs.
fn is_expected<R: Print + AllocGlobal>(
    rt: &R,
    name: &str,
    number: u64,
    case: &Case<'_>,
    ending: Ending,
    sink: &MemSink,
) -> io::Result<bool> {
    let message = format!(in rt.alloc(); "{ending}")?;
    let status = ending.status();
    if status as u64 != case.status || message.as_str() != case.message {
        println!(rt; "{name} case {number}: status {status}, message '{message}'")?;
        return Ok(false);
    }
    if sink.bytes() != case.output {
        let count = sink.bytes().len();
        println!(rt; "{name} case {number}: {count} other bytes went out")?;
        return Ok(false);
    }
    Ok(true)
}

/// Bytes, so many times behind one another.
fn repeated(alloc: Global, text: &[u8], count: u64) -> Result<Vec<u8>, AllocError> {
    let mut bytes = Vec::new(alloc);
    for _time in 0..count {
        bytes.extend_from_slice(text)?;
    }
    Ok(bytes)
}

/// The bytes of the source.
fn source_of<R: Files + AllocGlobal>(rt: &R, case: &Case<'_>) -> io::Result<Vec<u8>> {
    let bytes = match case.source {
        Given::Here(text) => repeated(rt.alloc(), text, case.repeat)?,
        Given::File(name) => fs::read(rt, name)?,
    };
    Ok(bytes)
}

/// Runs one case and counts it.
pub fn run_case<R: Files + Print + AllocGlobal + Threads + Wait + Sync>(
    rt: &R,
    name: &str,
    number: u64,
    case: &Case<'_>,
    totals: &mut Totals,
) -> io::Result<()> {
    let alloc = rt.alloc();
    let bytes = source_of(rt, case)?;
    let fails_read = case.fails_read.as_slice().to_vec(alloc)?;
    let fails_write = case.fails_write.as_slice().to_vec(alloc)?;
    let mut source = MemSource::new(bytes, fails_read, case.most_read.max(1));
    let mut sink = MemSink::new(alloc, ROOM, fails_write, case.most_write.max(1))?;
    let ending = affine_main(
        rt,
        alloc,
        case.words.as_slice(),
        &mut source,
        &mut sink,
        &OpenGate,
    );
    totals.runs = totals.runs.saturating_add(1);
    if !is_expected(rt, name, number, case, ending, &sink)? {
        totals.differ = totals.differ.saturating_add(1);
    }
    Ok(())
}
