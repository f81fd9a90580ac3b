//! The lines of what a reader gives, read one by one.

ghost use Rattle.std.specs.Prelude.{◌≡◌, ◌≢◌, ◌≤◌, ◌<◌, ◌↔◌, List, [], ◌∷◌, ◌++◌, All, length, take, slice_index};
ghost use Rattle.std.specs.Prelude.{Ok, Some, None, IfOk, OnErr, IfSome, OnSome, IsTrue, ◌^◌, ◌+◌};
ghost use Rattle.std.specs.Io.KnownBytes.{IsAtEnd};
ghost use Rattle.mesh_line_service.specs.Lines.{TakesLines, BreaksOff};
ghost use Rattle.mesh_line_service.specs.Held.{Holds};
ghost use Rattle.mesh_line_service.specs.Private.Steps.{Takes};

use std::alloc::Global;
use std::io;
use std::io::{BufRead, Error, ErrorKind};

/// A line without the line feed that ends it, as far as it is held.
#[derive(Drop)]
pub struct Line {
    /// Its bytes, or the first of them.
    pub(crate) bytes: Vec<u8>,
    /// How much of it they are.
    pub(crate) held: Held,
}

/// How much of a line is held.
#[derive(Debug, Clone, Copy, PartialEq, Eq)]
pub enum Held {
    /// All of it.
    Whole,
    /// A part: it has more bytes than these, which a line may have at most.
    TooLong(usize),
    /// A part: memory was refused.
    NoMemory,
}

/// What ends the bytes that were taken last.
#[derive(Debug, Clone, Copy, PartialEq, Eq)]
pub(crate) enum Met {
    /// Nothing so far.
    More,
    /// The line feed of the line.
    LineFeed,
    /// The reader's end.
    End,
}

/// Reads the next line, which is held as far as it has at most so many bytes; the rest is passed over. `None`: the
/// reader has no byte more. It fails where the reader does, and the bytes of the line that were taken before are lost.
pub fn read_line<R: BufRead>(
    alloc: Global,
    reader: &mut R,
    longest: Option<usize>,
) -> io::Result<Option<Line>>
    ensures line { IfOk result (λ read. IfSome read (λ line. (text : List _)
        × TakesLines (R.remaining reader.old) (R.remaining reader.new) (text ∷ [])
        × Holds longest text line.bytes.items line.held)) }
    ensures none { result ≡ Ok None → TakesLines (R.remaining reader.old) (R.remaining reader.new) []
        × OnSome (R.remaining reader.old) (IsAtEnd (R.remaining reader.new)) }
    ensures failed { OnErr result (BreaksOff (R.remaining reader.old) (R.remaining reader.new)) }
{
    let mut line = Line {
        bytes: Vec::new(alloc),
        held: Held::Whole,
    };
    for _ in 0..u64::MAX {
        match take_some(reader, longest, &mut line)? {
            Met::More => {}
            Met::LineFeed => return Ok(Some(line)),
            Met::End => return Ok(some_unless_empty(line)),
        }
    }
    Err(Error::from(ErrorKind::Interrupted))
}

/// The line, where it has a byte.
fn some_unless_empty(line: Line) -> Option<Line>
    ensures some { IfSome result (λ same. (same ≡ line) × (line.held ≡ Held.Whole → 0 < length line.bytes.items)) }
    ensures none { result ≡ None → (line.held ≡ Held.Whole) × (line.bytes.items ≡ []) }
{
    if line.held == Held::Whole && line.bytes.len() == 0 {
        return None;
    }
    Some(line)
}

/// Takes what the reader shows next of a line, and its line feed where that stands there.
fn take_some<R: BufRead>(reader: &mut R, longest: Option<usize>, line: &mut Line) -> io::Result<Met>
    ensures taken { IfOk result (Takes longest (R.remaining reader.old) (R.remaining reader.new) line.old line.new) }
    ensures failed { OnErr result (BreaksOff (R.remaining reader.old) (R.remaining reader.new)) }
{
    let shown = match reader.fill_buf() {
        Ok(shown) => shown,
        Err(error) => {
            return if error.kind() == ErrorKind::Interrupted {
                Ok(Met::More)
            } else {
                Err(error)
            };
        }
    };
    let place = line_feed_place(shown);
    line.hold(&shown[..place], longest);
    if place < shown.len() {
        reader.consume(place + 1);
        return Ok(Met::LineFeed);
    }
    reader.consume(place);
    if place == 0 {
        Ok(Met::End)
    } else {
        Ok(Met::More)
    }
}

/// The place of the first line feed, or the length where there is none.
fn line_feed_place(bytes: &[u8]) -> usize
    ensures bound { result ≤ length bytes.now }
    ensures before { All (λ byte. byte ≢ 10) (take result bytes.now) }
    ensures there { result < length bytes.now → slice_index bytes.now result ≡ 10 }
{
    let mut i = 0;
    while i < bytes.len() {
        if bytes[i] == b'\n' {
            return i;
        }
        i += 1;
    }
    i
}

/// The most bytes that a line may have, where so many bytes, and so many more, are too many.
fn exceeded(longest: Option<usize>, held: usize, more: usize) -> Option<usize>
    requires held { held < 2 ^ 63 }
    requires more { more < 2 ^ 63 }
    ensures some { IfSome result (λ most. (longest ≡ Some most) × (most < held + more)) }
    ensures none { result ≡ None → IfSome longest (λ most. held + more ≤ most) }
{
    let most = longest?;
    if most < held + more { Some(most) } else { None }
}

impl Line {
    /// Holds more bytes of the line, as far as these are not too many and memory is granted.
    fn hold(&mut self, part: &[u8], longest: Option<usize>)
        ensures { (text : List _) → Holds longest text self.old.bytes.items self.old.held
            → Holds longest (text ++ part.now) self.new.bytes.items self.new.held }
    {
        if part.is_empty() || self.held != Held::Whole {
            return;
        }
        if let Some(most) = exceeded(longest, self.bytes.len(), part.len()) {
            self.held = Held::TooLong(most);
            return;
        }
        if self.bytes.extend_from_slice(part).is_err() {
            self.held = Held::NoMemory;
        }
    }
}
