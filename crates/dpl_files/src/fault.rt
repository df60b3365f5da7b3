//! What the program says of a call of the system that failed.
use std::fmt::Write;
use std::{fmt, io, str};

/// How many bytes of an error's text are kept.
const ROOM: usize = 256;

/// A call that failed: on what, and why.
#[derive(Clone, Copy)]
pub struct Fault<'a> {
    /// The file's name, or `standard output`.
    pub place: &'a str,
    pub cause: io::Error,
}

impl fmt::Display for Fault<'_> {
    /// As `in.gds: No such file or directory`: the number that std puts behind a message of the system is left out. It takes no memory.
    fn fmt<W: fmt::Write>(&self, f: &mut fmt::Formatter<W>) -> fmt::Result {
        let text = Text::of(&self.cause);
        let text = text.as_str();
        let place = self.place;
        let reason = text.split(" (os error ").next().unwrap_or(text);
        write!(f, "{place}: {reason}")
    }
}

/// The beginning of a text, in room of its own.
#[derive(Drop)]
struct Text {
    bytes: [u8; ROOM],
    len: usize,
}

impl Text {
    /// What is told of an error.
    fn of(error: &io::Error) -> Text {
        let mut text = Text {
            bytes: [0; ROOM],
            len: 0,
        };
        let _ = write!(text, "{error}");
        text
    }

    fn as_str(&self) -> &str {
        str::from_utf8(&self.bytes[..self.len.min(ROOM)]).unwrap_or("")
    }
}

impl fmt::Write for Text {
    fn write_str(&mut self, more: &str) -> fmt::Result {
        for byte in more.as_bytes() {
            if self.len < ROOM {
                self.bytes[self.len] = *byte;
                self.len += 1;
            }
        }
        Ok(())
    }
}
