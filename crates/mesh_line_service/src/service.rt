//! One run over the lines of any reader, to any writer.

ghost use Rattle.std.specs.Prelude.{◌≡◌, ◌↔◌};
ghost use Rattle.mesh_line_service.specs.Endings.{RepliesToAll, RepliesBeforeFailedRead, RepliesBeforeFailedWrite};

use crate::line::read_line;
use crate::options::LineOptions;
use crate::reply::{reply, write_reply};
use std::alloc::Global;
use std::io;
use std::io::{BufRead, Write};

impl Ending {
    /// The exit status of the process: 0 where each line has its reply, 1 where writing failed, 2 where reading failed.
    pub fn code(self) -> u8
        ensures served { result ≡ 0 ↔ (self ≡ Ending.Served) }
        ensures unread { result ≡ 2 ↔ (self ≡ Ending.Unread) }
        ensures unwritten { result ≡ 1 ↔ (self ≡ Ending.Unwritten) }
    {
        match self {
            Ending::Served => 0,
            Ending::Unwritten => 1,
            Ending::Unread => 2,
        }
    }
}

/// How a run over lines ended.
#[derive(Debug, Clone, Copy, PartialEq, Eq)]
pub enum Ending {
    /// Each line of the reader has its reply, and nothing else was written.
    Served,
    /// Reading failed. Each line that was read whole has its reply.
    Unread,
    /// Writing failed. Each line that was read but the last has its reply; of the reply to the last a beginning was
    /// written, which may be all of it or nothing.
    Unwritten,
}

/// Writes one reply to each line that the reader has left, in their order, and hands each on before it reads the next
/// line. A reply is what the service answers to the bytes of the line without its line feed: an answer, or a line that
/// tells of a failure. A line of more than `options.longest` bytes is passed over, and replied to by a refusal. Where
/// `options.most_splits` is not 0, a request that takes more splits is refused. With `options.nearness` an answer tells
/// how far from the edges that are drawn or combined it may be wrong, in 64ths of a grid unit. With `options.why` the
/// reply to a line that holds no request tells why. What people are told on the stream of errors, with
/// `options.progress` how many lines have their reply, and whether that takes it, changes none of this.
pub fn serve_lines<R: BufRead, W: Write, E: Write>(
    alloc: Global,
    reader: &mut R,
    writer: &mut W,
    errors: &mut E,
    options: LineOptions,
) -> Ending
    ensures served { result ≡ Ending.Served → RepliesToAll options
        (R.remaining reader.old) (R.remaining reader.new) (W.contents writer.old) (W.contents writer.new) }
    ensures unread { result ≡ Ending.Unread → RepliesBeforeFailedRead options
        (R.remaining reader.old) (R.remaining reader.new) (W.contents writer.old) (W.contents writer.new) }
    ensures unwritten { result ≡ Ending.Unwritten → RepliesBeforeFailedWrite options
        (R.remaining reader.old) (R.remaining reader.new) (W.contents writer.old) (W.contents writer.new) }
{
    for before in 0..u64::MAX {
        match read_line(alloc, reader, options.longest) {
            Err(_) => return Ending::Unread,
            Ok(None) => return Ending::Served,
            Ok(Some(line)) => {
                let reply = reply(alloc, &line, options);
                match write_reply(writer, &reply) {
                    Err(_) => return Ending::Unwritten,
                    Ok(()) => {
                        let _ = tell_progress(errors, before + 1, options);
                    }
                }
            }
        }
    }
    Ending::Unread
}

/// Tells how many lines have their reply, where that is asked.
fn tell_progress<E: Write>(errors: &mut E, count: u64, options: LineOptions) -> io::Result<()> {
    if options.progress {
        writeln!(errors, "lines done: {count}")?;
        errors.flush()?;
    }
    Ok(())
}
