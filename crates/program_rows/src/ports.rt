//! Runs over a source and a sink in memory that give and take pieces, fail and stick, and runs within a limit.
use crate::runs::{ANSWERS, INPUT, SCALAR};
use std::alloc::Global;
use std::process::Abort;
use std::str::from_utf8;
use std::test::Fail;
use tensor_cli::{Outcome, run, run_within};
use tensor_ports::{MemSink, MemSource};

/// Of what a source gives at most in a read, and a sink takes in a write, and where they fail or stick.
#[derive(Clone, Copy)]
struct Ports {
    piece: usize,
    room: usize,
    read: Option<u64>,
    write: Option<u64>,
    stuck: Option<u64>,
}

/// Nothing fails.
fn sound(piece: usize) -> Ports {
    Ports {
        piece,
        room: 200,
        read: None,
        write: None,
        stuck: None,
    }
}

/// The place where one fails, if there is one.
fn places(alloc: Global, place: Option<u64>) -> Result<Vec<u64>, Fail> {
    let mut places = Vec::new(alloc);
    if let Some(place) = place {
        places.push(place)?;
    }
    Ok(places)
}

/// The run over this input writes this text, and ends so.
fn expect(
    rt: &impl Abort,
    alloc: Global,
    input: &str,
    ports: Ports,
    want: &str,
    end: Outcome,
) -> Result<(), Fail> {
    let piece = ports.piece.max(1);
    let bytes = input.as_bytes().to_vec(alloc)?;
    let mut source = MemSource::new(bytes, piece, places(alloc, ports.read)?);
    let mut sink = MemSink::new(
        alloc,
        ports.room,
        piece,
        places(alloc, ports.write)?,
        ports.stuck,
    )?;
    let words = Vec::new(alloc);
    assert_eq!(rt; run(alloc, &words, &mut source, &mut sink), end, "{input}");
    assert_eq!(rt; from_utf8(sink.taken())?, want, "{input}");
    Ok(())
}

/// What a run over two lines leaves behind where a port fails.
#[test]
fn one_fault(rt: HostRuntime) -> Result<(), Fail> {
    let ports = sound(3);
    let read = Ports {
        read: Some(12),
        ..sound(4)
    };
    let write = Ports {
        room: 100,
        write: Some(10),
        ..ports
    };
    let stuck = Ports {
        room: 100,
        stuck: Some(10),
        ..ports
    };
    let vector = "form 1 V free 3 of 3\nT1 free\nT2 free\nT3 free\n";
    let rows = [
        ("form 1 V\nform 2 V\n", read, vector, Outcome::ReadFault),
        ("form 1 V\n", write, "form 1 V f", Outcome::WriteFault),
        ("form 1 1\n", write, "form 1 1 f", Outcome::WriteFault),
        ("form 1 1\n", stuck, "form 1 1 f", Outcome::WriteFault),
    ];
    for (input, ports, want, end) in rows {
        expect(&rt, rt.alloc(), input, ports, want, end)?;
    }
    Ok(())
}

#[test]
fn pieces(rt: HostRuntime) -> Result<(), Fail> {
    for piece in 1..19 {
        expect(
            &rt,
            rt.alloc(),
            INPUT,
            sound(piece),
            ANSWERS,
            Outcome::Answered,
        )?;
    }
    Ok(())
}

/// The last line has no break.
#[test]
fn pieces_without_break(rt: HostRuntime) -> Result<(), Fail> {
    for piece in 1..19 {
        expect(
            &rt,
            rt.alloc(),
            &INPUT[..17],
            sound(piece),
            ANSWERS,
            Outcome::Answered,
        )?;
    }
    Ok(())
}

/// In format 2, whose first line comes in pieces too.
#[test]
fn pieces_of_heading(rt: HostRuntime) -> Result<(), Fail> {
    for piece in 1..19 {
        expect(
            &rt,
            rt.alloc(),
            "format 2\n#\nform 1 1",
            sound(piece),
            SCALAR,
            Outcome::Answered,
        )?;
    }
    Ok(())
}

/// A read at a place of the second line fails, whatever the pieces.
#[test]
fn one_failed_read(rt: HostRuntime) -> Result<(), Fail> {
    for piece in 1..19 {
        let ports = Ports {
            read: Some(12),
            ..sound(piece)
        };
        expect(&rt, rt.alloc(), INPUT, ports, SCALAR, Outcome::ReadFault)?;
    }
    Ok(())
}

#[test]
fn failed_reads(rt: HostRuntime) -> Result<(), Fail> {
    for place in 0..19u64 {
        let ports = Ports {
            read: Some(place),
            ..sound(5)
        };
        let want = match place {
            0..=8 => "",
            9..=17 => SCALAR,
            _ => ANSWERS,
        };
        expect(&rt, rt.alloc(), INPUT, ports, want, Outcome::ReadFault)?;
    }
    Ok(())
}

/// The first bytes of the answers.
fn front(count: usize) -> &'static str {
    ANSWERS.get(..count).unwrap_or(ANSWERS)
}

/// How a run ends whose sink fails at a place, or sticks.
fn end_at(place: usize) -> Outcome {
    if place < ANSWERS.len() {
        Outcome::WriteFault
    } else {
        Outcome::Answered
    }
}

#[test]
fn failed_writes(rt: HostRuntime) -> Result<(), Fail> {
    for place in 0..74 {
        let ports = Ports {
            write: Some(place as u64),
            ..sound(7)
        };
        expect(&rt, rt.alloc(), INPUT, ports, front(place), end_at(place))?;
    }
    Ok(())
}

#[test]
fn stuck_writes(rt: HostRuntime) -> Result<(), Fail> {
    for place in 0..74 {
        let ports = Ports {
            stuck: Some(place as u64),
            ..sound(7)
        };
        expect(&rt, rt.alloc(), INPUT, ports, front(place), end_at(place))?;
    }
    Ok(())
}

/// A sink without room for all answers fails where it is full.
#[test]
fn full_sinks(rt: HostRuntime) -> Result<(), Fail> {
    for room in 0..74 {
        let ports = Ports { room, ..sound(7) };
        expect(&rt, rt.alloc(), INPUT, ports, front(room), end_at(room))?;
    }
    Ok(())
}

/// Of an answered line, all bytes were taken from the source, and none of what follows.
#[test]
fn limits(rt: HostRuntime) -> Result<(), Fail> {
    let alloc = rt.alloc();
    let rows = [
        ("form 1 1\n", 9, SCALAR, Outcome::Answered, 0),
        ("form 1 1\n", 8, "", Outcome::InputLimit, 0),
        ("form 1 1\n\n", 9, SCALAR, Outcome::InputLimit, 0),
        ("form 1 1\n\n1", 9, SCALAR, Outcome::InputLimit, 1),
        ("form 1 1", 8, SCALAR, Outcome::Answered, 0),
        ("form 1 1", 0, "", Outcome::InputLimit, 7),
        ("", 0, "", Outcome::Answered, 0),
        (INPUT, 17, SCALAR, Outcome::InputLimit, 0),
        (INPUT, 18, ANSWERS, Outcome::Answered, 0),
    ];
    for (input, limit, want, end, left) in rows {
        let mut source = MemSource::new(input.as_bytes().to_vec(alloc)?, 4, Vec::new(alloc));
        let mut sink = MemSink::new(alloc, 200, 7, Vec::new(alloc), None)?;
        assert_eq!(rt;
            run_within(alloc, limit, &mut source, &mut sink),
            end,
            "{input}"
        );
        assert_eq!(rt; from_utf8(sink.taken())?, want, "{input}");
        assert_eq!(rt; source.remaining().len(), left, "{input}");
    }
    Ok(())
}

#[test]
fn statuses(rt: HostRuntime) {
    let rows = [
        (Outcome::Answered, 0),
        (Outcome::SomeRefused, 1),
        (Outcome::Usage, 2),
        (Outcome::ReadFault, 3),
        (Outcome::WriteFault, 4),
        (Outcome::NoMemory, 5),
        (Outcome::InputLimit, 6),
    ];
    for (outcome, status) in rows {
        assert_eq!(rt; outcome.status(), status);
    }
}

/// An input of lines that are no requests, with a sink whose room is taken beforehand. Where memory is refused, it is before
/// the first read.
#[test]
fn refused_memory(rt: HostRuntime) -> Result<(), Fail> {
    let alloc = rt.alloc();
    let input = b"x\n\nform\n";
    let mut source = MemSource::new(input.to_vec(alloc)?, 3, Vec::new(alloc));
    let mut sink = MemSink::new(alloc, 200, 7, Vec::new(alloc), None)?;
    let words = Vec::new(alloc);
    let outcome = run(alloc, &words, &mut source, &mut sink);
    let (left, want) = match outcome {
        Outcome::NoMemory => (input.as_slice(), b"".as_slice()),
        _ => (
            b"".as_slice(),
            b"error 1 1 syntax\nerror 3 5 syntax\n".as_slice(),
        ),
    };
    assert!(rt; outcome == Outcome::NoMemory || outcome == Outcome::SomeRefused);
    assert_eq!(rt; source.remaining(), left);
    assert_eq!(rt; sink.taken(), want);
    Ok(())
}
