use super::*;
use std::io;
use std::test::*;

#[test]
fn reads_to_the_end(rt: HostRuntime) -> Result<(), Fail> {
    let alloc = rt.alloc();
    let mut source = MemorySource::new(alloc, b"hello", &[])?;
    let read = read_whole(alloc, &mut source);
    assert!(rt; read.is_ok_and(|bytes| bytes.as_slice() == b"hello".as_slice()));
    let mut failing = MemorySource::new(alloc, b"hello", &[2])?;
    assert!(rt; read_whole(alloc, &mut failing).is_err_and(|e| e == ReadFault::Failed));
    let mut reader = ReadSource::new(io::empty());
    assert!(rt; read_whole(alloc, &mut reader).is_ok_and(|bytes| bytes.is_empty()));
    Ok(())
}

#[test]
fn puts_all_or_a_front(rt: HostRuntime) -> Result<(), Fail> {
    let alloc = rt.alloc();
    let mut sink = MemorySink::new(alloc, 7, &[2])?;
    assert!(rt; put_all(&mut sink, b"hello").is_ok());
    assert!(rt; put_all(&mut sink, b"lost").is_err());
    assert!(rt; put_all(&mut sink, b"more").is_err());
    assert!(rt; sink.held() == b"hellomo".as_slice());
    let mut writer = WriteSink::new(io::sink());
    assert!(rt; put_all(&mut writer, b"hello").is_ok());
    Ok(())
}
