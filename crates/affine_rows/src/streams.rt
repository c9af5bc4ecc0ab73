// Sources and sinks.
use affine_io::{
    MemSink, MemSource, NeverSink, NeverSource, ReadStop, StdSink, StdSource, WriteFault, read_all,
    write_all,
};
use std::test::Fail;

const TEXT: &[u8] = b"affine.for %i = 0 to 8";

#[test]
fn a_source_is_read_in_pieces_of_any_size(rt: HostRuntime) -> Result<(), Fail> {
    let alloc = rt.alloc();
    for most in [1, 2, 3, 64] {
        let mut source = MemSource::new(TEXT.to_vec(alloc)?, Vec::new(alloc), most);
        let bytes = read_all(alloc, &mut source, TEXT.len())?;
        assert_eq!(rt; bytes.as_slice(), TEXT, "at {most}");
        let mut short = MemSource::new(TEXT.to_vec(alloc)?, Vec::new(alloc), most);
        let stop = read_all(alloc, &mut short, TEXT.len() - 1);
        assert!(rt; matches!(stop, Err(ReadStop::TooLong)), "at {most}");
    }
    Ok(())
}

#[test]
fn a_fault_in_mid_stream_is_answered(rt: HostRuntime) -> Result<(), Fail> {
    let alloc = rt.alloc();
    let mut source = MemSource::new(TEXT.to_vec(alloc)?, vec![in alloc; 3]?, 4);
    assert!(rt; matches!(read_all(alloc, &mut source, 64), Err(ReadStop::Fault)));
    let rest = read_all(alloc, &mut source, 64)?;
    assert_eq!(rt; rest.as_slice(), &TEXT[8..]);
    let mut sink = MemSink::new(alloc, 64, vec![in alloc; 2]?, 10)?;
    assert!(rt; matches!(write_all(&mut sink, TEXT), Err(WriteFault { written: 10 })));
    assert_eq!(rt; sink.bytes(), b"affine.for".as_slice());
    let mut full = MemSink::new(alloc, 7, Vec::new(alloc), 10)?;
    assert!(rt; matches!(write_all(&mut full, TEXT), Err(WriteFault { written: 7 })));
    Ok(())
}

#[test]
fn adapters_pass_bytes_on(rt: HostRuntime) -> Result<(), Fail> {
    let alloc = rt.alloc();
    let mut never = NeverSource::new(TEXT.to_vec(alloc)?);
    assert_eq!(rt; read_all(alloc, &mut never, 64)?.as_slice(), TEXT);
    write_all(&mut NeverSink::new(), TEXT)?;
    let mut source = StdSource::new(TEXT);
    let bytes = read_all(alloc, &mut source, 64)?;
    assert_eq!(rt; bytes.as_slice(), TEXT);
    let mut out: Vec<u8> = Vec::new(alloc);
    write_all(&mut StdSink::new(&mut out), bytes.as_slice())?;
    assert_eq!(rt; out.as_slice(), TEXT);
    Ok(())
}
