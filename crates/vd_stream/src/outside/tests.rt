//! Readers and writers that are interrupted, move a few bytes at a time, or fail.
use super::*;
use crate::{ReadFault, put_all, read_whole};
use std::io;
use std::io::{BufWriter, ErrorKind};
use std::test::*;

/// What one call does.
#[derive(Clone, Copy)]
enum Step {
    /// Moves at most so many bytes.
    Moves(usize),
    Interrupted,
    Fails,
}

use Step::{Fails, Interrupted, Moves};

/// The first step, which is taken off. Where none is left, all bytes move.
fn next(steps: &mut &[Step]) -> io::Result<usize> {
    let Some((first, rest)) = steps.split_first() else {
        return Ok(usize::MAX);
    };
    *steps = rest;
    match *first {
        Moves(most) => Ok(most),
        Interrupted => Err(io::Error::from(ErrorKind::Interrupted)),
        Fails => Err(io::Error::from(ErrorKind::StorageFull)),
    }
}

#[derive(Drop)]
struct SteppedReader<'a> {
    left: &'a [u8],
    steps: &'a [Step],
}

impl<'a> Read for SteppedReader<'a> {
    fn read(&mut self, into: &mut [u8]) -> io::Result<usize> {
        let most = next(&mut self.steps)?;
        let count = into.len().min(most).min(self.left.len());
        into[..count].copy_from_slice(&self.left[..count]);
        self.left = &self.left[count..];
        Ok(count)
    }
}

#[derive(Drop)]
struct SteppedWriter<'a> {
    held: Vec<u8>,
    steps: &'a [Step],
    flushes: &'a [Step],
}

impl<'a> Write for SteppedWriter<'a> {
    fn write(&mut self, bytes: &[u8]) -> io::Result<usize> {
        let most = next(&mut self.steps)?;
        let count = bytes.len().min(most);
        self.held.extend_from_slice(&bytes[..count])?;
        Ok(count)
    }

    fn flush(&mut self) -> io::Result<()> {
        next(&mut self.flushes)?;
        Ok(())
    }
}

#[test]
fn reads_again_where_it_was_interrupted(rt: HostRuntime) -> Result<(), Fail> {
    let alloc = rt.alloc();
    let table: [(&[Step], Option<&[u8]>); 7] = [
        (&[], Some(b"hello")),
        (&[Moves(1), Moves(1), Moves(2)], Some(b"hello")),
        (&[Interrupted], Some(b"hello")),
        (
            &[
                Moves(1),
                Interrupted,
                Interrupted,
                Moves(2),
                Moves(9),
                Interrupted,
            ],
            Some(b"hello"),
        ),
        (&[Moves(2), Moves(0)], Some(b"he")),
        (&[Fails], None),
        (&[Moves(2), Interrupted, Fails], None),
    ];
    for (steps, wanted) in table {
        let mut source = ReadSource::new(SteppedReader {
            left: b"hello",
            steps,
        });
        match (read_whole(alloc, &mut source), wanted) {
            (Ok(bytes), Some(wanted)) => {
                assert!(rt; bytes.as_slice() == wanted);
                assert_eq!(rt; source.faults, 0);
            }
            (Err(ReadFault::Failed), None) => assert_eq!(rt; source.faults, 1),
            _ => assert!(rt; false),
        }
    }
    Ok(())
}

#[test]
fn writes_and_flushes_again_where_it_was_interrupted(rt: HostRuntime) -> Result<(), Fail> {
    let alloc = rt.alloc();
    // The writes, the flushes, what is held, and whether the puts and the flush are Ok.
    let table: [(&[Step], &[Step], &[u8], bool, bool); 8] = [
        (&[], &[], b"hello", true, true),
        (&[Moves(1), Moves(1), Moves(2)], &[], b"hello", true, true),
        (
            &[Interrupted],
            &[Interrupted, Interrupted],
            b"hello",
            true,
            true,
        ),
        (
            &[Moves(1), Interrupted, Moves(3), Interrupted],
            &[],
            b"hello",
            true,
            true,
        ),
        (&[Moves(2), Fails], &[], b"he", false, true),
        (&[Moves(2), Interrupted, Fails], &[], b"he", false, true),
        (&[Moves(3), Moves(0)], &[], b"hel", false, true),
        (&[], &[Interrupted, Fails], b"hello", true, false),
    ];
    for (steps, flushes, held, puts, flushed) in table {
        let mut sink = WriteSink::new(SteppedWriter {
            held: Vec::new(alloc),
            steps,
            flushes,
        });
        assert_eq!(rt; put_all(&mut sink, b"hello").is_ok(), puts);
        assert_eq!(rt; sink.faults, if puts { 0 } else { 1 });
        assert_eq!(rt; sink.flush().is_ok(), flushed);
        assert_eq!(rt; sink.faults, if puts && flushed { 0 } else { 1 });
        assert!(rt; sink.writer.held.as_slice() == held);
    }
    Ok(())
}

#[test]
fn bytes_held_back_are_written_by_the_flush(rt: HostRuntime) -> Result<(), Fail> {
    let alloc = rt.alloc();
    // Five bytes pass by the buffer of four, and the next two stay in it.
    let table: [(&[Step], &[u8], bool); 4] = [
        (&[], b"hello, ", true),
        (
            &[Interrupted, Moves(5), Interrupted, Moves(1), Interrupted],
            b"hello, ",
            true,
        ),
        (&[Moves(5), Moves(1), Fails], b"hello,", false),
        (&[Moves(5), Moves(0)], b"hello", false),
    ];
    for (steps, held, flushed) in table {
        let writer = SteppedWriter {
            held: Vec::new(alloc),
            steps,
            flushes: &[],
        };
        let mut sink = WriteSink::new(BufWriter::with_capacity(alloc, 4, writer)?);
        assert!(rt; put_all(&mut sink, b"hello").is_ok());
        assert!(rt; put_all(&mut sink, b", ").is_ok());
        assert_eq!(rt; sink.flush().is_ok(), flushed);
        assert_eq!(rt; sink.faults, if flushed { 0 } else { 1 });
        assert!(rt; sink.writer.get_ref().held.as_slice() == held);
    }
    Ok(())
}
