// Runs the vectors that stand on standard input, a line each, and prints each line with what the library makes of it. Lines that start
// with # say what the vectors below them show; the other forms are explained at the top of that file.
#![tactic(auto)]

ghost use Rattle.streams.specs.Streams.{AppendsSome};
ghost use Rattle.std.specs.Prelude.{◌≡◌, ◌<◌, ◌≤◌, length};

use calls::{day_in, file_in, second_in};
use say::{numbers, say_text};
use std::io::{self, Write};
use streams::read_front;

pub mod calls;

// Room for the numbers of a line, and the longest output buffer: more than the longest file and the longest listing.
const ROOM: usize = 4096;

// A call's answer, by the word's first letter.
fn answer<W: Write>(to: &mut W, word: u8, numbers: &[u8], out: &mut [u8]) -> io::Result<()>
    ensures { AppendsSome (W.contents to.old) (W.contents to.new) }
{
    let file = file_in(numbers);
    match word {
        b'r' => calls::read(to, file, out),
        b'w' => calls::write(to, day_in(numbers), out),
        b'm' => calls::mark(to, file, out),
        b'p' => calls::plan(to, file, out),
        b'l' => calls::list(to, file, out),
        b'b' => calls::better(to, file, second_in(numbers)),
        b'f' => calls::fulfil(to, file, second_in(numbers), out),
        b't' => calls::take(to, file),
        _ => Ok(()),
    }
}

// A line and the answer to it. Its first number is the length of the output buffer, whose bytes are all 255 before the call.
fn run<W: Write>(to: &mut W, line: &[u8]) -> io::Result<()>
    ensures { AppendsSome (W.contents to.old) (W.contents to.new) }
{
    say_text(to, line)?;
    if line.len() == 0 {
        return Ok(());
    }
    let mut numbers = [0u8; ROOM];
    numbers::read(line, &mut numbers);
    let room = numbers::at(&numbers, 0) as usize;
    let mut out = [255u8; ROOM];
    if ROOM < room {
        return Ok(());
    }
    answer(to, line[0], &numbers, &mut out[..room])
}

// Where the line that starts at a place ends, its end included.
fn line_end(text: &[u8], start: usize) -> usize
    requires { start < length text.now }
    ensures { (start < result) × (result ≤ length text.now) }
{
    let mut i = start;
    while i < text.len() {
        if text[i] == b'\n' {
            return i + 1;
        }
        i += 1;
    }
    i
}

fn run_all<W: Write>(to: &mut W, text: &[u8]) -> io::Result<()>
    ensures { AppendsSome (W.contents to.old) (W.contents to.new) }
{
    let mut start = 0;
    while start < text.len() {
        let end = line_end(text, start);
        run(to, &text[start..end])?;
        start = end;
    }
    Ok(())
}

// Room for all vectors, and more.
fn input_room() -> [u8; 262144]
    ensures { 262144 ≡ length result }
{
    [0; 262144]
}

// Vectors for which there is no room would go unnoticed, so it is said where none is left.
fn main(rt: HostRuntime) -> io::Result<()> {
    let mut text = input_room();
    let n = read_front(&mut rt.reader(), &mut text)?;
    let mut to = io::writer(&rt);
    run_all(&mut to, &text[..n])?;
    if n == text.len() {
        return say_text(&mut to, b"there may be vectors that were not read\n");
    }
    Ok(())
}
