// Whether a file holds a lawful sheet: all the lines that the marker checks in a row.
#![tactic(auto)]

ghost use Rattle.std.specs.Prelude.{◌≡◌};
ghost use Rattle.dayfile.specs.Table.{first_of, sheet_lines, mark_lines};
ghost use Rattle.dayfile.specs.Memory.{refused, Reads};

use cells::check_sheet;
use dayfile::{Check, Reading, check_room};
use memory::is_lawful;

mod memory;

// The shortest buffer that takes every path: 31 moves of 3 bytes.
pub const MOVES_ROOM: usize = 93;

// Lines 1 to 15 and those of optional parts, of a file that was read: whether it holds a lawful sheet.
pub fn check_lawful(file: &[u8], reading: Reading) -> Check
    requires { Reads file.now reading }
    ensures { refused result ≡ first_of (sheet_lines file.now) }
{
    let first = reading.check;
    if let Check::Refused { number, at } = first {
        return Check::Refused { number, at };
    }
    if is_lawful(reading.day) {
        return Check::Sound;
    }
    check_sheet(file)
}

// The marker's lines, of a file that was read and a buffer of `room` bytes.
pub fn check_file(file: &[u8], reading: Reading, room: usize) -> Check
    requires { Reads file.now reading }
    ensures { refused result ≡ first_of (mark_lines file.now room) }
{
    if let Check::Refused { number, at } = check_lawful(file, reading) {
        return Check::Refused { number, at };
    }
    check_room(room, MOVES_ROOM)
}
