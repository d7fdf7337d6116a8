// Counts of what was seen: three for each number, and how much was wrong.
ghost use Rattle.std.specs.Prelude.{◌<◌};

use say::{COUNTS, ROWS, WRONG};

pub type Tally = [u32; COUNTS];

// One more of a number, in one of the three columns. Numbers that a report has no line for are not counted.
pub fn count(mut tally: Tally, column: usize, number: usize, right: bool) -> Tally
    requires { column < 3 }
{
    if number < ROWS {
        let place = 3 * number + column;
        tally[place] = std::num::wrapping_add_u32(tally[place], 1);
    }
    if !right {
        tally[WRONG] = std::num::wrapping_add_u32(tally[WRONG], 1);
    }
    tally
}

// One more of a number, if it came up.
pub fn count_if(tally: Tally, there: bool, column: usize, number: usize) -> Tally
    requires { column < 3 }
{
    if there {
        return count(tally, column, number, true);
    }
    tally
}
