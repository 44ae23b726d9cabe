// Reading and writing with a failure told from the end of the input.
//
// Which bytes the system reads or writes is outside what a contract can say. These say how many, and that each function ends.
#![tactic(auto)]

ghost use Rattle.std.specs.Prelude.{◌≤◌, ◌<◌, ◌≡◌, length, take, IfOk, IfErr, MatchResult};
ghost use Rattle.std.specs.Io.{ReadsAtMost, WritesAtMost};
ghost use Rattle.std.specs.Io.KnownBytes.{Appends, Consumes, IsAtEnd, ReadConsumes, WriteAppends};
ghost use Rattle.std.specs.IoError.{error_kind};
ghost use Rattle.console.specs.Moved.{moved};

use std::io::{Cursor, Error, ErrorKind, Read, Result, Write};
use std::result;

// How many calls are made in all where signals break them off.
const CALLS: u32 = 1000;

// What was moved before the call that failed, and why that failed.
#[derive(Debug, Drop)]
pub struct Stopped {
    pub bytes: usize,
    pub why: Error,
}

impl From<Stopped> for Error {
    ghost from_gives = { λ s why. why ≡ s.why };

    fn from(stopped: Stopped) -> Error {
        stopped.why
    }
}

// One read; a call that a signal broke off is made again. write_some is its twin: with one function over a closure of the call, it was not proved
// what the call leaves in the buffer, since a proof knows nothing of what such a closure borrowed and changed.
fn read_some<R: Read>(from: &mut R, buf: &mut [u8]) -> Result<usize>
    ensures bound { ReadsAtMost result buf.new }
    ensures bytes { ReadConsumes (R.remaining from.old) (R.remaining from.new) result buf.new }
{
    for _ in 1..CALLS {
        match from.read(&mut *buf) {
            Err(why) if why.kind() == ErrorKind::Interrupted => {}
            read => return read,
        }
    }
    from.read(buf)
}

// Reads until `buf` is full, the input ends or a read fails. A turn moves as many bytes as one call does, so no `for` counts them.
pub fn read_all<R: Read>(from: &mut R, buf: &mut [u8]) -> result::Result<usize, Stopped>
    ensures bytes_in_bounds { moved result ≤ length buf.new }
    ensures bytes_value { moved result ≡ length (take (moved result) buf.new) }
    ensures taken { Consumes (R.remaining from.old) (R.remaining from.new) (take (moved result) buf.new) }
    ensures end { IfOk result (λ n. n < length buf.new → IsAtEnd (R.remaining from.new)) }
{
    let mut done: usize = 0;
    while done < buf.len() {
        match read_some(&mut *from, &mut buf[done..]) {
            Ok(0) => return Ok(done),
            Ok(n) => done += n,
            Err(why) => return Err(Stopped { bytes: done, why }),
        }
    }
    Ok(done)
}

// One write; a call that a signal broke off is made again.
fn write_some<W: Write>(to: &mut W, bytes: &[u8]) -> Result<usize>
    ensures bound { WritesAtMost result bytes.now }
    ensures bytes { WriteAppends (W.contents to.old) (W.contents to.new) result bytes.now }
{
    for _ in 1..CALLS {
        match to.write(bytes) {
            Err(why) if why.kind() == ErrorKind::Interrupted => {}
            written => return written,
        }
    }
    to.write(bytes)
}

// Writes all of `bytes`, or as many as there are before a write that fails. One that takes nothing and names no error has failed too.
// No `for` counts the bytes here either.
pub fn write_all<W: Write>(to: &mut W, bytes: &[u8]) -> result::Result<(), Stopped>
    ensures bytes_in_bounds { IfErr result (λ stopped. stopped.bytes ≤ length bytes.now) }
    ensures given { MatchResult result (λ _. Appends (W.contents to.old) (W.contents to.new) bytes.now) (λ stopped. Appends (W.contents to.old) (W.contents to.new) (take stopped.bytes bytes.now)) }
{
    let mut done: usize = 0;
    while done < bytes.len() {
        match write_some(&mut *to, &bytes[done..]) {
            Ok(0) => {
                let why = Error::new(ErrorKind::WriteZero, "failed to write whole buffer");
                return Err(Stopped { bytes: done, why });
            }
            Ok(n) => done += n,
            Err(why) => return Err(Stopped { bytes: done, why }),
        }
    }
    Ok(())
}

// An error's words: what stands before its number.
fn words_of(text: &[u8]) -> &[u8] {
    let mark = b" (os error ".as_slice();
    let end = text.windows(mark.len()).position(|part| part == mark);
    &text[..end.unwrap_or(text.len())]
}

// Says what failed, and why in the system's words, as far as 128 bytes. Nobody is told of a reader that has gone.
pub fn tell<W: Write>(to: &mut W, what: &[u8], why: &Error)
    ensures { error_kind why.now ≡ ErrorKind.BrokenPipe → to.new ≡ to.old }
{
    if why.kind() == ErrorKind::BrokenPipe {
        return;
    }
    let mut text = Cursor::new([0u8; 128]);
    let _ = write!(text, "{why}");
    let length = text.position().min(128) as usize;
    let words = words_of(&text.get_ref()[..length]);
    for part in [what, b": ".as_slice(), words, b"\n".as_slice()] {
        let _ = write_all(&mut *to, part);
    }
}
