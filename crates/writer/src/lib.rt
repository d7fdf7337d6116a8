// Writes the day file of a day in memory to the front of an output buffer.
#![tactic(auto)]

ghost use Rattle.dayfile.specs.Memory.{WritesDay};

use dayfile::{Check, Day, Written};
use lines::check_day;
use store::{file_length, put_file};

pub mod lines;

// The file at the front of any buffer, or the refusal.
pub fn write(out: &mut [u8], day: Day) -> Written
    ensures { WritesDay day out.old out.new result }
{
    if let Check::Refused { number, at } = check_day(day) {
        return Written::Refused { number, at };
    }
    let n = file_length(day.book, day.has_sheet);
    if out.len() < n {
        return Written::Refused { number: 16, at: n };
    }
    let caps = day.caps.to_grid();
    let sheet = day.sheet.to_grid();
    put_file(out, day.book, &caps, day.has_sheet, &sheet);
    Written::Whole { length: n }
}
