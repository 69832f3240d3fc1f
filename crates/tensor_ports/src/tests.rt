//! Reads and writes in memory, and over readers and writers.
use crate::{
    MemSink, MemSource, Sink, Source, StdSink, StdSource, SureSink, SureSource, write_all_of,
};
use std::alloc::Global;
use std::io;
use std::io::{Read, Write};
use std::process::Abort;
use std::test::Fail;

const TEXT: &[u8] = b"abcdef";

/// Reads once into five bytes, and writes what was read once.
fn step<I: Source, O: Sink>(source: &mut I, sink: &mut O) -> (Option<usize>, Option<usize>) {
    let mut into = [0; 5];
    let given = source.read(&mut into).ok();
    let count = given.unwrap_or(0).min(5);
    (given, sink.write(&into[..count]).ok())
}

/// A step in memory, with the place where the read fails, and the places where the write fails or sticks.
fn expect_step(
    rt: &impl Abort,
    alloc: Global,
    read: (usize, u64),
    write: (usize, usize, u64, u64),
    want: (Option<usize>, Option<usize>),
) -> Result<(), Fail> {
    let read_fails = vec![in alloc; read.1]?;
    let write_fails = vec![in alloc; write.2]?;
    let mut source = MemSource::new(TEXT.to_vec(alloc)?, read.0.max(1), read_fails);
    let mut sink = MemSink::new(alloc, write.0, write.1.max(1), write_fails, Some(write.3))?;
    assert!(rt; step(&mut source, &mut sink) == want);
    assert!(rt; source.remaining() == &TEXT[want.0.unwrap_or(0).min(6)..]);
    assert!(rt; sink.taken() == &TEXT[..want.1.unwrap_or(0).min(6)]);
    Ok(())
}

#[test]
fn steps_in_memory(rt: HostRuntime) -> Result<(), Fail> {
    let rows = [
        ((4, 9), (9, 9, 9, 9), (Some(4), Some(4))),
        ((8, 9), (9, 3, 9, 9), (Some(5), Some(3))),
        ((8, 2), (9, 9, 9, 9), (Some(2), Some(2))),
        ((8, 0), (0, 9, 0, 0), (None, Some(0))),
        ((8, 9), (4, 9, 9, 9), (Some(5), Some(4))),
        ((8, 9), (0, 9, 9, 9), (Some(5), None)),
        ((8, 9), (9, 9, 2, 9), (Some(5), Some(2))),
        ((8, 9), (9, 9, 0, 0), (Some(5), None)),
        ((8, 9), (9, 9, 9, 1), (Some(5), Some(1))),
        ((8, 9), (9, 9, 9, 0), (Some(5), Some(0))),
    ];
    for (read, write, want) in rows {
        expect_step(&rt, rt.alloc(), read, write, want)?;
    }
    Ok(())
}

#[test]
fn never_fails(rt: HostRuntime) -> Result<(), Fail> {
    let alloc = rt.alloc();
    let mut source = SureSource::new(TEXT.to_vec(alloc)?);
    let mut sink = SureSink::new(alloc);
    assert!(rt; step(&mut source, &mut sink) == (Some(5), Some(5)));
    assert!(rt; source.remaining() == b"f".as_slice());
    assert!(rt; sink.taken() == b"abcde".as_slice());
    // With memory at hand it goes on telling its bytes.
    assert!(rt; step(&mut source, &mut sink) == (Some(1), Some(1)));
    assert!(rt; sink.taken() == TEXT);
    Ok(())
}

#[test]
fn writes_whole_pieces(rt: HostRuntime) -> Result<(), Fail> {
    let alloc = rt.alloc();
    let mut sink = MemSink::new(alloc, 9, 2, vec![in alloc; 7u64]?, None)?;
    assert!(rt; write_all_of(&mut sink, TEXT).is_ok());
    assert!(rt; write_all_of(&mut sink, TEXT).is_err());
    assert!(rt; sink.taken() == b"abcdefa".as_slice());
    Ok(())
}

/// Fails at each call, but takes what is written.
#[derive(Drop)]
struct Failing;

impl Read for Failing {
    fn read(&mut self, _: &mut [u8]) -> io::Result<usize> {
        Err(io::ErrorKind::Other.into())
    }
}

impl Write for Failing {
    fn write(&mut self, piece: &[u8]) -> io::Result<usize> {
        Ok(piece.len())
    }

    fn flush(&mut self) -> io::Result<()> {
        Err(io::ErrorKind::Other.into())
    }
}

#[test]
fn reads_and_writes_outside(rt: HostRuntime) {
    let mut bytes = Vec::new(rt.alloc());
    let mut reader = StdSource::new(TEXT.chain(Failing));
    let mut writer = StdSink::new(&mut bytes);
    assert!(rt; step(&mut reader, &mut writer) == (Some(5), Some(5)));
    let mut failing = StdSink::new(Failing);
    assert!(rt; step(&mut reader, &mut failing) == (Some(1), None));
    assert!(rt; step(&mut reader, &mut writer) == (None, Some(0)));
    assert!(rt; bytes.as_slice() == b"abcde".as_slice());
}

/// Is interrupted at the first call where it should be, and takes one byte at a time.
#[derive(Drop)]
struct Slow<T> {
    inner: T,
    interrupted: bool,
}

impl<T> Slow<T> {
    /// Fails once.
    fn interrupt(&mut self) -> io::Result<()> {
        if self.interrupted {
            self.interrupted = false;
            return Err(io::ErrorKind::Interrupted.into());
        }
        Ok(())
    }
}

impl<R: Read> Read for Slow<R> {
    fn read(&mut self, into: &mut [u8]) -> io::Result<usize> {
        self.interrupt()?;
        self.inner.read(into)
    }
}

impl<W: Write> Write for Slow<W> {
    fn write(&mut self, piece: &[u8]) -> io::Result<usize> {
        self.interrupt()?;
        self.inner.write(&piece[..piece.len().min(1)])
    }

    fn flush(&mut self) -> io::Result<()> {
        self.inner.flush()
    }
}

/// An interrupted read is a fault, and the next read goes on; at the end of the input each read tells so.
#[test]
fn reads_to_the_end(rt: HostRuntime) {
    let mut reader = StdSource::new(Slow {
        inner: TEXT,
        interrupted: true,
    });
    let mut into = [0; 5];
    assert!(rt; reader.read(&mut into).is_err());
    assert!(rt; reader.read(&mut into) == Ok(5));
    assert!(rt; reader.read(&mut into) == Ok(1));
    assert!(rt; reader.read(&mut into) == Ok(0));
    assert!(rt; reader.read(&mut into) == Ok(0));
}

/// A write that fails ends the piece, and short writes are no faults.
#[test]
fn writes_byte_by_byte(rt: HostRuntime) {
    let mut bytes = Vec::new(rt.alloc());
    let mut writer = StdSink::new(Slow {
        inner: &mut bytes,
        interrupted: true,
    });
    assert!(rt; write_all_of(&mut writer, TEXT).is_err());
    assert!(rt; write_all_of(&mut writer, TEXT).is_ok());
    assert!(rt; bytes.as_slice() == TEXT);
}
