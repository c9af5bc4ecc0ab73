// A call of the program, with a source and a sink in memory.
use affine_driver::{Ending, affine_main};
use affine_io::{MemSink, MemSource};
use dma_engine::Gate;
use std::alloc::{AllocError, Global};
use std::sync::Wait;
use std::thread::Threads;

/// The room of the sink: more than any of these calls writes.
const ROOM: usize = 1_048_576;

/// What a call of the program wrote, where it wrote all; nothing where it was refused.
pub(crate) fn written<R: Threads + Wait + Sync, G: Gate + Sync>(
    alloc: Global,
    rt: &R,
    words: &[&str],
    text: &[u8],
    gate: &G,
) -> Result<Option<Vec<u8>>, AllocError> {
    let mut source = MemSource::new(Vec::from_slice(alloc, text)?, Vec::new(alloc), 4096);
    let mut sink = MemSink::new(alloc, ROOM, Vec::new(alloc), 4096)?;
    let ending = affine_main(rt, alloc, words, &mut source, &mut sink, gate);
    if !matches!(ending, Ending::Done) {
        return Ok(None);
    }
    let bytes = sink.bytes().to_vec(alloc)?;
    Ok(Some(bytes))
}
