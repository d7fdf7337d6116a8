// Idle seats (paper 02): all caps of such a seat are zero.
ghost use Rattle.std.specs.Prelude.{◌≤◌};

use crate::Small;
use crate::memory::grid_of;
use dayfile::Day;
use sheet::Grid;

// Whether the numbers of all windows are zero.
pub fn all_zero(row: [u16; 24]) -> bool {
    for w in 0..24usize {
        if row[w] != 0 {
            return false;
        }
    }
    true
}

// The lowest idle seat above a seat, both counted from 1, in a book of so many seats; 0 where there is none. Caps outside the book are 0.
pub fn idle_above(caps: Grid, seat: usize, seats: usize) -> usize
    ensures { result ≤ 32 }
{
    for i in 0..32usize {
        let row = caps[i];
        if (seat <= i) & (i < seats) & all_zero(row) {
            return i + 1;
        }
    }
    0
}

// The lowest idle seat of a day's book.
pub fn idle_in(day: Day) -> usize
    ensures { result ≤ 32 }
{
    let book = day.book;
    idle_above(day.caps.to_grid(), 0, book.seats)
}

// The lowest idle seat of a small book.
pub fn idle_seat(s: Small) -> usize
    ensures { result ≤ 32 }
{
    let caps = s.caps;
    idle_above(grid_of(caps), 0, s.seats)
}

// The offset of a seat's class. Ahead of it stand the number of entries, which is two bytes, the entries, six each, and the classes of the
// seats before it.
pub fn class_at(entries: u8, seat: usize) -> usize
    requires { seat ≤ 32 }
{
    6 * entries as usize + 2 * seat
}
