// What the test programs are made of: numbers in a text, text to a writer, answers in numbers, a look at the bytes of a buffer.
#![tactic(auto)]

ghost use Rattle.std.specs.Prelude.{◌<◌, OnOk, OnErr};
ghost use Rattle.std.specs.Io.KnownBytes.{Appends};
ghost use Rattle.streams.specs.Streams.{AppendsFront, AppendsSome};

use dayfile::{Check, Written};
use itoa::Buffer;
use std::io::{self, Write};
use streams::write_front;

pub mod numbers;

// All functions that say something keep what the writer had, and end with the error where a write fails; `say_text` says also that a front
// of its text was written then.
pub fn say_text<W: Write>(to: &mut W, text: &[u8]) -> io::Result<()>
    ensures whole { OnOk result (Appends (W.contents to.old) (W.contents to.new) text.now) }
    ensures front { OnErr result (AppendsFront (W.contents to.old) (W.contents to.new) text.now) }
    ensures kept { AppendsSome (W.contents to.old) (W.contents to.new) }
{
    write_front(to, text)
}

pub fn say_number<W: Write>(to: &mut W, n: usize) -> io::Result<()>
    ensures { AppendsSome (W.contents to.old) (W.contents to.new) }
{
    say_text(to, Buffer::new().format(n).as_bytes())
}

const DIGITS: [u8; 16] = *b"0123456789abcdef";

fn say_byte<W: Write>(to: &mut W, x: u8) -> io::Result<()>
    ensures { AppendsSome (W.contents to.old) (W.contents to.new) }
{
    say_text(
        to,
        &[DIGITS[usize::from(x / 16)], DIGITS[usize::from(x % 16)]],
    )
}

// Bytes in hexadecimal, and the line's end.
pub fn say_hex<W: Write>(to: &mut W, bytes: &[u8]) -> io::Result<()>
    ensures { AppendsSome (W.contents to.old) (W.contents to.new) }
{
    for x in bytes {
        say_byte(to, *x)?;
    }
    say_text(to, b"\n")
}

pub fn say_buffer<W: Write>(to: &mut W, out: &[u8]) -> io::Result<()>
    ensures { AppendsSome (W.contents to.old) (W.contents to.new) }
{
    say_text(to, b", buffer ")?;
    say_hex(to, out)
}

// A number with its name; nothing where it is 0.
pub fn say_named<W: Write>(to: &mut W, name: &[u8], n: usize) -> io::Result<()>
    ensures { AppendsSome (W.contents to.old) (W.contents to.new) }
{
    if n == 0 {
        return Ok(());
    }
    say_text(to, name)?;
    say_number(to, n)
}

pub fn say_refusal<W: Write>(to: &mut W, number: u8, at: usize) -> io::Result<()>
    ensures { AppendsSome (W.contents to.old) (W.contents to.new) }
{
    say_text(to, b"refused ")?;
    say_number(to, usize::from(number))?;
    say_text(to, b" at ")?;
    say_number(to, at)
}

// An answer in numbers: a refusal's number and offset, or the length of what was written. What an answer does not use is 0.
#[derive(Clone, Copy)]
pub struct Reply {
    pub taken: bool,
    pub number: u8,
    pub at: usize,
    pub length: usize,
}

pub fn refusal(number: u8, at: usize) -> Reply {
    Reply {
        taken: false,
        number,
        at,
        length: 0,
    }
}

pub fn taken(length: usize) -> Reply {
    Reply {
        taken: true,
        number: 0,
        at: 0,
        length,
    }
}

pub fn checked(c: Check) -> Reply {
    match c {
        Check::Refused { number, at } => refusal(number, at),
        Check::Sound => taken(0),
    }
}

pub fn replied(w: Written) -> Reply {
    match w {
        Written::Refused { number, at } => refusal(number, at),
        Written::Whole { length } => taken(length),
    }
}

pub fn say_reply<W: Write>(to: &mut W, r: Reply) -> io::Result<()>
    ensures { AppendsSome (W.contents to.old) (W.contents to.new) }
{
    if r.taken {
        say_text(to, b"length ")?;
        return say_number(to, r.length);
    }
    say_refusal(to, r.number, r.at)
}

// The first n bytes, or all where there are fewer.
pub fn front(s: &[u8], n: usize) -> &[u8] {
    &s[..n.min(s.len())]
}

// Whether the bytes from an offset on all have one value.
pub fn all_from(bytes: &[u8], at: usize, value: u8) -> bool {
    bytes.iter().skip(at).all(|b| *b == value)
}

// The numbers from 0 on that a report has a line for.
pub const ROWS: usize = 23;

// How much was wrong stands behind three counts for each of these numbers.
pub const WRONG: usize = 3 * ROWS;

// The counts of a report.
pub const COUNTS: usize = WRONG + 1;

pub fn say_count<W: Write>(to: &mut W, name: &[u8], n: u32) -> io::Result<()>
    ensures { AppendsSome (W.contents to.old) (W.contents to.new) }
{
    say_text(to, name)?;
    say_number(to, n as usize)
}

// The line of a number; none where its three counts are 0.
fn say_row<W: Write>(to: &mut W, counts: &[u32; COUNTS], row: usize) -> io::Result<()>
    requires { row < 23 }
    ensures { AppendsSome (W.contents to.old) (W.contents to.new) }
{
    let a = counts[3 * row];
    let b = counts[3 * row + 1];
    let c = counts[3 * row + 2];
    if a == 0 && b == 0 && c == 0 {
        return Ok(());
    }
    say_text(to, b"  ")?;
    say_number(to, row)?;
    say_count(to, b": ", a)?;
    say_count(to, b", ", b)?;
    say_count(to, b", ", c)?;
    say_text(to, b"\n")
}

// What was counted, with a line ahead that says of what.
pub fn say_report<W: Write>(to: &mut W, title: &[u8], counts: &[u32; COUNTS]) -> io::Result<()>
    ensures { AppendsSome (W.contents to.old) (W.contents to.new) }
{
    say_text(to, title)?;
    for row in 0..ROWS {
        say_row(to, counts, row)?;
    }
    say_count(to, b"  wrong: ", counts[WRONG])?;
    say_text(to, b"\n")
}
