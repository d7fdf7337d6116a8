// What each call of the library says, and its output buffer afterwards.
ghost use Rattle.streams.specs.Streams.{AppendsSome};

use answers::Numbers;
use choice::Choice;
use dayfile::{Book, Day};
use forecast::ForecastResult;
use reply::FulfilResult;
use say::{
    checked, front, numbers, replied, say_buffer, say_count, say_hex, say_named, say_number,
    say_refusal, say_reply, say_text,
};
use std::io::{self, Write};

// The file of a line: its length is the second number, and its fields are the numbers after that.
pub fn file_in(numbers: &[u8]) -> &[u8] {
    let length = numbers::wide(numbers, 1);
    numbers::bytes(numbers, 2, length)
}

// The second file of a line, or the row of wanted totals: all fields of the file stand before it.
pub fn second_in(numbers: &[u8]) -> &[u8] {
    let place = 2 + (numbers::wide(numbers, 1) + 1) / 2;
    let length = numbers::wide(numbers, place);
    numbers::bytes(numbers, place + 1, length)
}

// A book in memory: whether it has a sheet, seats, windows, classes, supplies, caps, sheet, whether a first seat is named, that seat,
// whether there are balances, and these, whether there are own weights, and these.
pub fn day_in(numbers: &[u8]) -> Day {
    let seats = numbers::wide(numbers, 2);
    let windows = numbers::wide(numbers, 3);
    let cells = numbers::product(seats, windows);
    let mut classes = [0u16; 32];
    numbers::fill(numbers, 4, &mut classes);
    let mut supplies = [0u16; 24];
    numbers::fill(numbers, 4 + seats, &mut supplies);
    let caps = numbers::grid(numbers, 4 + seats + windows, windows);
    let sheet = numbers::grid(numbers, 4 + seats + windows + cells, windows);
    let after = 4 + seats + windows + 2 * cells;
    let mut balances = [0u16; 32];
    numbers::fill(numbers, after + 3, &mut balances);
    let mut weights = [0u16; 8];
    numbers::fill(numbers, after + 4 + seats, &mut weights);
    let book = Book {
        seats,
        windows,
        classes,
        supplies,
        has_first: numbers::at(numbers, after) == 1,
        first: numbers::at(numbers, after + 1),
        has_balances: numbers::at(numbers, after + 2) == 1,
        balances,
        has_weights: numbers::at(numbers, after + 3 + seats) == 1,
        weights,
    };
    Day::new(book, caps, numbers::at(numbers, 1) == 1, sheet)
}

pub fn write<W: Write>(to: &mut W, day: Day, out: &mut [u8]) -> io::Result<()>
    ensures { AppendsSome (W.contents to.old) (W.contents to.new) }
{
    say_reply(to, replied(writer::write(out, day)))?;
    say_buffer(to, out)
}

// A file is read and, where it is accepted, written again.
pub fn read<W: Write>(to: &mut W, file: &[u8], out: &mut [u8]) -> io::Result<()>
    ensures { AppendsSome (W.contents to.old) (W.contents to.new) }
{
    let reading = reader::read(file);
    let check = reading.check;
    let r = checked(check);
    if r.taken {
        say_text(to, b"taken, written again ")?;
        return write(to, reading.day, out);
    }
    say_refusal(to, r.number, r.at)?;
    say_text(to, b"\n")
}

// A refusal; or a mark, and each number that comes with it: the others are 0.
fn say_marking<W: Write>(to: &mut W, m: Numbers) -> io::Result<()>
    ensures { AppendsSome (W.contents to.old) (W.contents to.new) }
{
    if m.mark == 0 {
        return say_refusal(to, m.refusal, m.offset);
    }
    say_named(to, b"mark ", m.mark as usize)?;
    say_named(to, b", window ", m.window)?;
    say_named(to, b" seat ", m.seat)?;
    say_named(to, b", moves ", m.moves)
}

pub fn mark<W: Write>(to: &mut W, file: &[u8], out: &mut [u8]) -> io::Result<()>
    ensures { AppendsSome (W.contents to.old) (W.contents to.new) }
{
    say_marking(to, marker::mark(file, out).numbers())?;
    say_buffer(to, out)
}

pub fn plan<W: Write>(to: &mut W, file: &[u8], out: &mut [u8]) -> io::Result<()>
    ensures { AppendsSome (W.contents to.old) (W.contents to.new) }
{
    say_reply(to, replied(planner::plan(file, out)))?;
    say_buffer(to, out)
}

// The listing of a file, whole.
pub fn list<W: Write>(to: &mut W, file: &[u8], out: &mut [u8]) -> io::Result<()>
    ensures { AppendsSome (W.contents to.old) (W.contents to.new) }
{
    let r = replied(listing::listing(file, out));
    say_reply(to, r)?;
    say_text(to, b"\n")?;
    say_text(to, front(out, r.length))
}

fn say_sheet<W: Write>(to: &mut W, name: &[u8], file: &[u8]) -> io::Result<()>
    ensures { AppendsSome (W.contents to.old) (W.contents to.new) }
{
    let span = better::sheet_span(file);
    say_text(to, name)?;
    say_named(to, b", start ", span.start)?;
    say_named(to, b" length ", span.length)
}

// A refusal and the file that it is of, if it is of one; or the file that is chosen, and where its sheet lies.
fn say_choice<'a, W: Write>(to: &mut W, first: &'a [u8], second: &'a [u8]) -> io::Result<()>
    ensures { AppendsSome (W.contents to.old) (W.contents to.new) }
{
    match better::choose(first, second) {
        Choice::Refused { file, number, at } => {
            say_refusal(to, number, at)?;
            say_named(to, b", file ", file as usize)
        }
        Choice::First => say_sheet(to, b"first", first),
        Choice::Second => say_sheet(to, b"second", second),
    }
}

// The choice, and then what is handed back.
pub fn better<'a, W: Write>(to: &mut W, first: &'a [u8], second: &'a [u8]) -> io::Result<()>
    ensures { AppendsSome (W.contents to.old) (W.contents to.new) }
{
    say_choice(to, first, second)?;
    say_text(to, b", part ")?;
    say_hex(to, better::better(first, second))
}

// A number with its name, 0 too.
fn say_each<W: Write>(to: &mut W, name: &[u8], n: usize) -> io::Result<()>
    ensures { AppendsSome (W.contents to.old) (W.contents to.new) }
{
    say_text(to, name)?;
    say_number(to, n)
}

// What is replied to a row of wanted totals, in all of its numbers.
pub fn fulfil<W: Write>(to: &mut W, file: &[u8], row: &[u8], out: &mut [u8]) -> io::Result<()>
    ensures { AppendsSome (W.contents to.old) (W.contents to.new) }
{
    let r = FulfilResult::of(fulfil::fulfil(file, row, out));
    say_each(to, b"refusal ", r.refusal as usize)?;
    say_each(to, b", offset ", r.offset)?;
    say_each(to, b", length ", r.length)?;
    say_each(to, b", group ", r.group as usize)?;
    say_buffer(to, out)
}

// One number for each window.
fn say_windows<W: Write>(to: &mut W, numbers: [u32; 24]) -> io::Result<()>
    ensures { AppendsSome (W.contents to.old) (W.contents to.new) }
{
    for w in 0..24usize {
        say_count(to, b" ", numbers[w])?;
    }
    say_text(to, b"\n")
}

// What a plan of a file will take, in all of its numbers.
pub fn take<W: Write>(to: &mut W, file: &[u8]) -> io::Result<()>
    ensures { AppendsSome (W.contents to.old) (W.contents to.new) }
{
    let r = ForecastResult::of(forecast::forecast(file));
    say_each(to, b"refusal ", r.refusal as usize)?;
    say_each(to, b", offset ", r.offset)?;
    say_each(to, b", length ", r.length)?;
    say_text(to, b", placed")?;
    let placed = r.placed;
    say_windows(to, placed)
}
