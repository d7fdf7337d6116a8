// Idle seats, whose caps are all zero: line 22, of the planner and the forecast alone.
#![tactic(auto)]

ghost use Rattle.std.specs.Prelude.{◌≡◌, [], ◌≤◌, get_or};
ghost use Rattle.model.specs.Lowest.{lowest};
ghost use Rattle.model.specs.Book.{all_zero};
ghost use Rattle.dayfile.specs.Bounds.{Fit};
ghost use Rattle.dayfile.specs.Layout.{book_of};
ghost use Rattle.dayfile.specs.Table.{first_of, idle_lines};
ghost use Rattle.dayfile.specs.Memory.{book_in, found, refused};

use dayfile::{Book, Check, Found};
use fields::start;
use sheet::Grid;

// Whether the first caps of a row are all zero.
fn all_zero(row: &[u16; 24], windows: usize) -> bool
    requires { windows ≤ 24 }
    ensures { result ≡ all_zero windows row.now }
{
    for w in 0..windows {
        if row[w] != 0 {
            return false;
        }
    }
    true
}

// The lowest of the first rows whose first caps are all zero.
fn idle_seat(caps: &Grid, seats: usize, windows: usize) -> Found
    requires { (seats ≤ 32) × (windows ≤ 24) }
    ensures { found result ≡ lowest seats (λ i. all_zero windows (get_or caps.now i [])) }
{
    for i in 0..seats {
        if all_zero(&caps[i], windows) {
            return Found::At(i);
        }
    }
    Found::Nothing
}

// Line 22, of a file whose book is in memory: the class of the lowest idle seat.
pub fn check_idle(file: &[u8], book: Book, caps: &Grid) -> Check
    requires { (book_in book caps.now ≡ book_of file.now) × Fit (book_in book caps.now) }
    ensures { refused result ≡ first_of (idle_lines file.now) }
{
    if let Found::At(seat) = idle_seat(caps, book.seats, book.windows) {
        return Check::Refused {
            number: 22,
            at: start(file, 0) + 2 * seat,
        };
    }
    Check::Sound
}
