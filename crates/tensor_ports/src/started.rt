//! The words that a program is started with.
ghost use Rattle.std.specs.Prelude.{◌≡◌};

use crate::ends::ToolEnd;
use std::alloc::AllocError;
use std::rt::Env;
use std::{env, io};

/// Why there is no list of words.
#[derive(Clone, Copy, Debug, PartialEq, Eq, Drop)]
pub enum WordsFault {
    /// No memory was left.
    NoMemory,
    /// One of them isn't text.
    NotText,
}

impl WordsFault {
    /// How a program that answers its words ends then: words that aren't text are refused as usage.
    pub fn tool_end(self) -> ToolEnd
        ensures memory { self ≡ WordsFault.NoMemory → result ≡ ToolEnd.NoMemory }
        ensures text { self ≡ WordsFault.NotText → result ≡ ToolEnd.Usage }
    {
        match self {
            WordsFault::NoMemory => ToolEnd::NoMemory,
            WordsFault::NotText => ToolEnd::Usage,
        }
    }
}

/// The words after the program's name. The system tells nothing of them beforehand, so no clause says what they are.
pub fn words_of<R: Env + AllocGlobal>(rt: &R) -> Result<Vec<String>, WordsFault> {
    let all = match env::args(rt) {
        Ok(all) => all,
        Err(error) => {
            return Err(match error.kind() {
                io::ErrorKind::OutOfMemory => WordsFault::NoMemory,
                _ => WordsFault::NotText,
            });
        }
    };
    match all.skip(1).collect(rt.alloc()) {
        Ok(words) => Ok(words),
        Err(AllocError) => Err(WordsFault::NoMemory),
    }
}
