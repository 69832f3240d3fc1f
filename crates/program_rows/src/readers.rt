//! Runs over readers and writers of std.
use crate::runs::{ANSWERS, INPUT, SCALAR};
use std::alloc::Global;
use std::io;
use std::io::{Read, Write};
use std::process::Abort;
use std::str::from_utf8;
use std::test::Fail;
use tensor_cli::{Outcome, run};
use tensor_ports::{StdSink, StdSource};

/// What comes after the bytes of a reader.
#[derive(Clone, Copy, PartialEq, Eq, Drop)]
enum After {
    End,
    Fault,
    Interrupt,
    /// The end, and then the same bytes again.
    Again,
}

/// Gives these bytes, and then what comes after them.
#[derive(Drop)]
struct Reader<'a> {
    bytes: &'a [u8],
    rest: &'a [u8],
    after: After,
}

impl Read for Reader<'_> {
    fn read(&mut self, into: &mut [u8]) -> io::Result<usize> {
        if !self.rest.is_empty() {
            return self.rest.read(into);
        }
        match self.after {
            After::End => Ok(0),
            After::Fault => Err(io::ErrorKind::Other.into()),
            After::Interrupt => {
                self.after = After::End;
                Err(io::ErrorKind::Interrupted.into())
            }
            After::Again => {
                self.rest = self.bytes;
                Ok(0)
            }
        }
    }
}

/// What a writer does with a piece.
#[derive(Clone, Copy, PartialEq, Eq, Drop)]
enum Way {
    Whole,
    ByteByByte,
    /// It takes nothing.
    Nothing,
    Fault,
    /// The first write fails, and the others don't.
    OneFault,
    /// It takes the piece, and the flush after it fails.
    Flush,
}

/// Takes bytes in one of these ways.
#[derive(Drop)]
struct Writer<'a> {
    bytes: &'a mut Vec<u8>,
    way: Way,
}

impl Write for Writer<'_> {
    fn write(&mut self, piece: &[u8]) -> io::Result<usize> {
        match self.way {
            Way::Whole | Way::Flush => self.bytes.write(piece),
            Way::ByteByByte => self.bytes.write(&piece[..piece.len().min(1)]),
            Way::Nothing => Ok(0),
            Way::Fault => Err(io::ErrorKind::Other.into()),
            Way::OneFault => {
                self.way = Way::Whole;
                Err(io::ErrorKind::Other.into())
            }
        }
    }

    fn flush(&mut self) -> io::Result<()> {
        if self.way == Way::Flush {
            return Err(io::ErrorKind::Other.into());
        }
        Ok(())
    }
}

/// The run over a reader of these bytes writes this text, and ends so.
fn expect(
    rt: &impl Abort,
    alloc: Global,
    input: &str,
    after: After,
    way: Way,
    want: &str,
    end: Outcome,
) -> Result<(), Fail> {
    let bytes = input.as_bytes();
    let mut taken = Vec::new(alloc);
    let mut source = StdSource::new(Reader {
        bytes,
        rest: bytes,
        after,
    });
    let mut sink = StdSink::new(Writer {
        bytes: &mut taken,
        way,
    });
    let words = Vec::new(alloc);
    assert_eq!(rt; run(alloc, &words, &mut source, &mut sink), end, "{input}");
    assert_eq!(rt; from_utf8(&taken)?, want, "{input}");
    Ok(())
}

/// Readers in memory, at their end, and with a fault or an interruption after each front of the input; a reader that would go on
/// after its end isn't read again.
#[test]
fn ends_of_readers(rt: HostRuntime) -> Result<(), Fail> {
    let rows = [
        (INPUT, After::End, ANSWERS, Outcome::Answered),
        (INPUT, After::Fault, ANSWERS, Outcome::ReadFault),
        (INPUT, After::Interrupt, ANSWERS, Outcome::ReadFault),
        (INPUT, After::Again, ANSWERS, Outcome::Answered),
        ("form 1 1", After::End, SCALAR, Outcome::Answered),
        ("form 1 1", After::Fault, "", Outcome::ReadFault),
        ("form 1 1", After::Again, SCALAR, Outcome::Answered),
        ("", After::Again, "", Outcome::Answered),
    ];
    for (input, after, want, end) in rows {
        expect(&rt, rt.alloc(), input, after, Way::Whole, want, end)?;
    }
    Ok(())
}

#[test]
fn failing_readers(rt: HostRuntime) -> Result<(), Fail> {
    for place in 0..19 {
        let want = match place {
            0..=8 => "",
            9..=17 => SCALAR,
            _ => ANSWERS,
        };
        expect(
            &rt,
            rt.alloc(),
            &INPUT[..place],
            After::Fault,
            Way::Whole,
            want,
            Outcome::ReadFault,
        )?;
    }
    Ok(())
}

#[test]
fn ways_of_writers(rt: HostRuntime) -> Result<(), Fail> {
    let rows = [
        (Way::Whole, ANSWERS, Outcome::Answered),
        (Way::ByteByByte, ANSWERS, Outcome::Answered),
        (Way::Nothing, "", Outcome::WriteFault),
        (Way::Fault, "", Outcome::WriteFault),
        (Way::OneFault, "", Outcome::WriteFault),
        (Way::Flush, ANSWERS, Outcome::WriteFault),
    ];
    for (way, want, end) in rows {
        expect(&rt, rt.alloc(), INPUT, After::End, way, want, end)?;
    }
    Ok(())
}
