//! Why a text holds no request.

ghost use Rattle.std.specs.Prelude.{◌≡◌, ◌<◌, ◌^◌};
ghost use Rattle.mesh_service.specs.Reasons.{IsTextPlace, after_byte};

use mesh_request::fault::Fault;
use std::fmt;

/// What is needed of a request that names no operation.
const NO_OPERATION: &str =
    "op: \"outline\", \"stroke\", \"variable_stroke\", \"boolean\", \"coverage\" or \
    \"overlaps\" is needed";

/// Why a text holds no request.
#[derive(Debug, Clone, Copy, PartialEq, Eq)]
pub enum Reason {
    /// It has no byte but blanks.
    Empty,
    /// It begins with a byte order mark.
    ByteOrderMark,
    /// It is no JSON in UTF-8: here it goes wrong.
    InvalidJson(TextPlace),
    /// It is JSON, and names no operation.
    NoOperation,
    /// It is JSON, and has this fault.
    Wrong(Fault),
    /// It has a number that is no whole number of 64 bits, where nothing else is looked at.
    InexactNumber,
}

/// A place in a text. Lines and columns count from 1, columns in bytes.
#[derive(Debug, Clone, Copy, PartialEq, Eq)]
pub struct TextPlace {
    pub line: usize,
    pub column: usize,
}

impl fmt::Display for Reason {
    ghost use Rattle.std.specs.Prelude.{Some};
    ghost use Rattle.mesh_service.specs.Reasons.{reason_text};

    ghost output = { λ reason. Some (reason_text reason) };

    fn fmt<W: fmt::Write>(&self, f: &mut fmt::Formatter<W>) -> fmt::Result {
        match self {
            Reason::Empty => write!(f, "the input is empty"),
            Reason::ByteOrderMark => write!(f, "line 1, column 1: a byte order mark"),
            Reason::InvalidJson(place) => write!(f, "{place}: invalid JSON"),
            Reason::NoOperation => f.write_str(NO_OPERATION),
            Reason::Wrong(fault) => write!(f, "{fault}"),
            Reason::InexactNumber => write!(
                f,
                "a number is no whole number from -2^63 to 2^64-1, under a key that is ignored"
            ),
        }
    }
}

impl fmt::Display for TextPlace {
    ghost use Rattle.std.specs.Prelude.{Some};
    ghost use Rattle.mesh_service.specs.Reasons.{place_text};

    ghost output = { λ place. Some (place_text place) };

    fn fmt<W: fmt::Write>(&self, f: &mut fmt::Formatter<W>) -> fmt::Result {
        write!(f, "line {}, column {}", self.line, self.column)
    }
}

/// This place of the text, or its end where it has no such place.
pub fn text_place(text: &[u8], sought: TextPlace) -> TextPlace
    ensures { IsTextPlace text.now result }
{
    let mut here = TextPlace { line: 1, column: 1 };
    for byte in text {
        if here == sought {
            return here;
        }
        here = after_byte(here, *byte);
    }
    here
}

/// The place after a byte that stands at a place.
fn after_byte(here: TextPlace, byte: u8) -> TextPlace
    requires line { here.line < 2 ^ 63 }
    requires column { here.column < 2 ^ 63 }
    ensures { result ≡ after_byte here byte }
{
    if byte == b'\n' {
        TextPlace {
            line: here.line + 1,
            column: 1,
        }
    } else {
        TextPlace {
            line: here.line,
            column: here.column + 1,
        }
    }
}
