// Plans the sheet of a day file.
#![tactic(auto)]

ghost use Rattle.std.specs.Prelude.{◌≡◌, ◌++◌};
ghost use Rattle.fairness.specs.Standard.{Standard};
ghost use Rattle.model.specs.Book.{cell, instance_of};
ghost use Rattle.dayfile.specs.Bounds.{Fit};
ghost use Rattle.dayfile.specs.Layout.{book_of};
ghost use Rattle.dayfile.specs.Table.{first_of, idle_lines, buffer_lines, planned_length};
ghost use Rattle.dayfile.specs.Memory.{book_in, refused};
ghost use Rattle.planner.specs.Planning.{Plans};

use dayfile::{Book, Check, Written, check_room, first_check};
use idle::check_idle;
use sheet::Grid;
use store::file_length;

// The standard sheet of the book that is in memory.
// Never made part of its caller: so its locals take stack only while it runs.
#[inline(never)]
fn planned_sheet(book: Book, caps: Grid) -> Grid
    requires { Fit (book_in book caps) }
    ensures { Standard (instance_of (book_in book caps)) (cell result) }
{
    let terms = instance::terms_of(book);
    let mut sheet = engine::settled(terms, &caps);
    standard::make_standard(&mut sheet, &caps, terms);
    sheet
}

// The lines behind the reader's, of a file whose book is in memory and a buffer of `room` bytes: 22, then 16.
fn check_rest(file: &[u8], book: Book, caps: &Grid, room: usize) -> Check
    requires { (book_in book caps.now ≡ book_of file.now) × Fit (book_in book caps.now) }
    ensures { refused result ≡ first_of (idle_lines file.now
        ++ buffer_lines room (planned_length (book_of file.now))) }
{
    let idle = check_idle(file, book, caps);
    let short = check_room(room, file_length(book, true));
    first_check(idle, short)
}

// The planned file at the front of the buffer, or the refusal.
pub fn plan(file: &[u8], out: &mut [u8]) -> Written
    ensures { Plans file.now out.old out.new result }
{
    let reading = reader::read(file);
    let check = reading.check;
    if let Check::Refused { number, at } = check {
        return Written::Refused { number, at };
    }
    let book = reading.day.book;
    let caps = reading.day.caps.to_grid();
    if let Check::Refused { number, at } = check_rest(file, book, &caps, out.len()) {
        return Written::Refused { number, at };
    }
    let sheet = planned_sheet(book, caps);
    let length = store::put_file(out, book, &caps, true, &sheet);
    Written::Whole { length }
}
