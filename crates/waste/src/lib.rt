// Whether a sheet is wasteful: some window has credits left while a seat is below its cap there.
#![tactic(auto)]

ghost use Rattle.std.specs.Prelude.{◌≡◌, ◌≤◌, ◌<◌};
ghost use Rattle.dayfile.specs.Memory.{found, book_in, cells_in};
ghost use Rattle.waste.specs.Wastes.{lowest_below, Tells};

use dayfile::{Book, Found};
use sheet::{Grid, placed};

// The lowest window that is wasted, and the lowest seat below its cap there, counted from 0.
#[derive(Clone, Copy)]
pub enum Waste {
    Nowhere,
    At { window: usize, seat: usize },
}

// The lowest seat that is below its cap in a window.
fn seat_below(cells: &Grid, caps: &Grid, seats: usize, window: usize) -> Found
    requires { (seats ≤ 32) × (window < 24) }
    ensures { found result ≡ lowest_below cells.now caps.now seats window }
{
    let mut i = 0;
    while i < seats {
        if cells[i][window] < caps[i][window] {
            return Found::At(i);
        }
        i += 1;
    }
    Found::Nothing
}

// Paper 01's mark 1, or that the sheet is not wasteful.
pub fn wasted(book: Book, caps: &Grid, cells: &Grid) -> Waste
    requires { (book.seats ≤ 32) × (book.windows ≤ 24) }
    ensures { Tells (book_in book caps.now) (cells_in book cells.now) result }
{
    let supplies = book.supplies;
    let seats = book.seats;
    let windows = book.windows;
    let placed = placed(cells, seats, windows);
    let mut window = 0;
    while window < windows {
        if placed[window] < supplies[window] as u32 {
            if let Found::At(seat) = seat_below(cells, caps, seats, window) {
                return Waste::At { window, seat };
            }
        }
        window += 1;
    }
    Waste::Nowhere
}
