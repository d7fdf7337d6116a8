// Reads a day file: the refusal of the first line of the table that holds, or the day that it holds, in arrays whose unused cells are 0.
#![tactic(auto)]

ghost use Rattle.dayfile.specs.Memory.{Reads};

use day::{day_of, no_day};
use dayfile::{Check, Reading};

mod day;

// What a file says: a refusal and a day of zeros, or its day.
pub fn read(file: &[u8]) -> Reading
    ensures { Reads file.now result }
{
    if let Check::Refused { number, at } = sound::check(file) {
        return Reading {
            check: Check::Refused { number, at },
            day: no_day(),
        };
    }
    Reading {
        check: Check::Sound,
        day: day_of(file),
    }
}
