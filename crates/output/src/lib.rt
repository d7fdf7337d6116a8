// What the programs print: all of it is decided here, and each program only hands over its input and its output.
#![tactic(auto)]

ghost use Rattle.std.specs.Prelude.{◌≡◌, ◌≤◌, ◌⊎◌, length, take, IfOk, IfSome, OnErr, OnOk};
ghost use Rattle.std.specs.Io.KnownBytes.{Keeps};
ghost use Rattle.dayfile.specs.declared.Written.TheVariants.{Whole};
ghost use Rattle.listing.specs.Calls.{Lists};
ghost use Rattle.streams.specs.Streams.{AppendsSome, ConsumesFront};
ghost use Rattle.output.specs.Output.{PrintsMark, PrintsPlan, Stops, Writes, taken};

use dayfile::Written;
use std::io::{self, Read, Write};
use streams::{read_front, write_front};

// A program's output buffer: the longest listing has 3,453 bytes, and the longest file 3,310.
pub const ROOM: usize = 4096;

// What `mark` prints of a file, at the front of the buffer: its listing, or the line of its refusal; and how long that is.
pub fn of_mark(file: &[u8], out: &mut [u8; ROOM]) -> usize
    ensures lists { Lists file.now out.old out.new (Whole result) }
    ensures upper_bound { result ≤ length out.new }
{
    match listing::listing(file, out) {
        Written::Whole { length } => length,
        Written::Refused { number: _, at: _ } => 0,
    }
}

// What `plan` prints of a file, at the front of the buffer: its planned file, or the line of its refusal; and how long that is.
pub fn of_plan(file: &[u8], out: &mut [u8; ROOM]) -> usize
    ensures prints_plan { PrintsPlan file.now out.old out.new result }
    ensures upper_bound { result ≤ length out.new }
{
    match planner::plan(file, out) {
        Written::Whole { length: planned } => planned,
        Written::Refused { number, at } => lines::put_refusal(out, number as usize, at),
    }
}

// A program takes no more of its input than so many bytes.
pub const TAKEN: usize = 65536;

// Reads what a program takes of its input into a buffer, and tells how much that is.
fn take_input<R: Read>(from: &mut R, file: &mut [u8; TAKEN]) -> io::Result<usize>
    ensures within { IfOk result (λ n. n ≤ length file.new) }
    ensures taken { IfOk result (λ n. IfSome (R.remaining from.old) (λ input. take n file.new ≡ taken input)) }
    ensures front { OnErr result (ConsumesFront (R.remaining from.old) (R.remaining from.new) file.new) }
{
    read_front(from, file)
}

// The program `mark`. A read that fails ends it with the error, and nothing is written; a write that fails ends it after a front of what it
// had to write.
pub fn mark<R: Read, W: Write>(from: &mut R, to: &mut W) -> io::Result<()>
    ensures whole { OnOk result (IfSome (R.remaining from.old)
        (λ input. Writes (PrintsMark (taken input)) (W.contents to.old) (W.contents to.new))) }
    ensures front { OnErr result (IfSome (R.remaining from.old)
        (λ input. Keeps (W.contents to.old) (W.contents to.new)
        ⊎ Stops (PrintsMark (taken input)) (W.contents to.old) (W.contents to.new))) }
    ensures kept { AppendsSome (W.contents to.old) (W.contents to.new) }
{
    let mut file = [0u8; TAKEN];
    let taken = take_input(from, &mut file)?;
    let mut out = [0u8; ROOM];
    let length = of_mark(&file[..taken], &mut out);
    write_front(to, &out[..length])
}

// The program `plan`, likewise.
pub fn plan<R: Read, W: Write>(from: &mut R, to: &mut W) -> io::Result<()>
    ensures whole { OnOk result (IfSome (R.remaining from.old)
        (λ input. Writes (PrintsPlan (taken input)) (W.contents to.old) (W.contents to.new))) }
    ensures front { OnErr result (IfSome (R.remaining from.old)
        (λ input. Keeps (W.contents to.old) (W.contents to.new)
        ⊎ Stops (PrintsPlan (taken input)) (W.contents to.old) (W.contents to.new))) }
    ensures kept { AppendsSome (W.contents to.old) (W.contents to.new) }
{
    let mut file = [0u8; TAKEN];
    let taken = take_input(from, &mut file)?;
    let mut out = [0u8; ROOM];
    let length = of_plan(&file[..taken], &mut out);
    write_front(to, &out[..length])
}
