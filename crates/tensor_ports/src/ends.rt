//! How a program that answers the words of its command line ends.
ghost use Rattle.std.specs.Prelude.{◌≡◌};
ghost use Rattle.tensor_ports.specs.ToolStatus.{tool_status};

/// How a program that answers the words of its command line ended.
#[derive(Clone, Copy, Debug, PartialEq, Eq, Drop)]
pub enum ToolEnd {
    Answered,
    Refused,
    Usage,
    WriteFault,
    NoMemory,
}

impl ToolEnd {
    /// The exit status.
    pub fn status(&self) -> u8
        ensures { result ≡ tool_status self.now }
    {
        match self {
            ToolEnd::Answered => 0,
            ToolEnd::Refused => 1,
            ToolEnd::Usage => 2,
            ToolEnd::WriteFault => 4,
            ToolEnd::NoMemory => 5,
        }
    }
}
