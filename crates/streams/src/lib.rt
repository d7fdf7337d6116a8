// What a program reads into the front of a buffer, and what it writes. No memory is asked for, and what is left where a read or a write
// fails is said too. A call that a signal interrupted is tried again.
#![tactic(auto)]

ghost use Rattle.std.specs.Prelude.{◌<◌, ◌≤◌, length, take, IfOk, OnOk, OnErr};
ghost use Rattle.std.specs.Io.KnownBytes.{Appends, Consumes, IsAtEnd};
ghost use Rattle.streams.specs.Streams.{AppendsFront, ConsumesFront};

use std::io::{self, ErrorKind, Read, Write};

// Reads until the buffer is full or the input ends, and tells how much of the buffer was filled.
pub fn read_front<R: Read>(from: &mut R, buf: &mut [u8]) -> io::Result<usize>
    ensures within { IfOk result (λ n. n ≤ length buf.new) }
    ensures bytes { IfOk result (λ n. Consumes (R.remaining from.old) (R.remaining from.new) (take n buf.new)) }
    ensures end { IfOk result (λ n. n < length buf.new → IsAtEnd (R.remaining from.new)) }
    ensures front { OnErr result (ConsumesFront (R.remaining from.old) (R.remaining from.new) buf.new) }
{
    let mut at = 0;
    for _ in 0..u64::MAX {
        if at >= buf.len() {
            return Ok(at);
        }
        match from.read(&mut buf[at..]) {
            Ok(0) => return Ok(at),
            Ok(n) => at += n,
            Err(e) if e.kind() == ErrorKind::Interrupted => {}
            Err(e) => return Err(e),
        }
    }
    Err(io::Error::from(ErrorKind::Interrupted))
}

// Writes these bytes: all of them or, where a write fails, a front of them.
pub fn write_front<W: Write>(to: &mut W, bytes: &[u8]) -> io::Result<()>
    ensures whole { OnOk result (Appends (W.contents to.old) (W.contents to.new) bytes.now) }
    ensures front { OnErr result (AppendsFront (W.contents to.old) (W.contents to.new) bytes.now) }
{
    let mut rest = bytes;
    for _ in 0..u64::MAX {
        if rest.is_empty() {
            return Ok(());
        }
        match to.write(rest) {
            Ok(0) => return Err(io::Error::from(ErrorKind::WriteZero)),
            Ok(n) => rest = &rest[n..],
            Err(e) if e.kind() == ErrorKind::Interrupted => {}
            Err(e) => return Err(e),
        }
    }
    Err(io::Error::from(ErrorKind::WriteZero))
}
