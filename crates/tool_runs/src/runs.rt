//! The text of a run, written.
ghost use Rattle.std.specs.Prelude.{◌≡◌, ◌≢◌};
ghost use Rattle.tensor_ports.specs.Causes.{Rose};
ghost use Rattle.tool_runs.specs.Tools.{Ends};

use tensor_ports::{Sink, ToolEnd, write_all_of};

/// What a text says to the words: their answer, the first refusal, or the usage.
#[derive(Clone, Copy, Debug, PartialEq, Eq, Drop)]
pub enum Kind {
    Answer,
    Refusal,
    Usage,
}

/// Writes the text of a run, and tells how the run ends.
pub fn write_text<O: Sink>(kind: Kind, text: &[u8], sink: &mut O) -> ToolEnd
    ensures ends { Ends result kind text.now (O.written sink.old) (O.written sink.new) }
    ensures cause { result ≡ ToolEnd.WriteFault → Rose (O.faults sink.old) (O.faults sink.new) }

    // No fault is passed over.
    ensures calm { result ≢ ToolEnd.WriteFault → O.faults sink.new ≡ O.faults sink.old }
{
    match write_all_of(sink, text) {
        Ok(()) => match kind {
            Kind::Answer => ToolEnd::Answered,
            Kind::Refusal => ToolEnd::Refused,
            Kind::Usage => ToolEnd::Usage,
        },
        Err(_) => ToolEnd::WriteFault,
    }
}
