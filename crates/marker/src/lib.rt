// Marks the sheet of a day file.
#![tactic(auto)]

ghost use Rattle.dayfile.specs.Memory.{Reads};
ghost use Rattle.marker.specs.Marking.{Marks};

use answers::Marking;
use dayfile::{Check, Reading};
use lawful::check_file;
use marks::mark_sheet;

// The mark of the sheet in a day file that was read.
pub fn mark_reading(file: &[u8], reading: Reading, moves: &mut [u8]) -> Marking
    requires { Reads file.now reading }
    ensures { Marks file.now moves.old moves.new result }
{
    if let Check::Refused { number, at } = check_file(file, reading, moves.len()) {
        return Marking::Refused { number, at };
    }
    let day = reading.day;
    let book = day.book;
    let caps = day.caps;
    let sheet = day.sheet;
    mark_sheet(book, caps.to_grid(), sheet.to_grid(), moves)
}

// The mark of the sheet in a day file; the path of marks 2 and 3 is written to the front of the buffer.
pub fn mark(file: &[u8], moves: &mut [u8]) -> Marking
    ensures { Marks file.now moves.old moves.new result }
{
    mark_reading(file, reader::read(file), moves)
}
