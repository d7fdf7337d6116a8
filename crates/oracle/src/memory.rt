// Small books and sheets in the form that the library takes.
ghost use Rattle.std.specs.Prelude.{◌<◌};

use crate::Small;
use crate::paths::byte;
use dayfile::{Book, Day};
use sheet::Grid;

// The book in memory, but for its caps.
pub fn book_of(s: Small) -> Book {
    let classes = s.classes;
    let supplies = s.supplies;
    let balances = s.balances;
    let weights = s.weights;
    Book {
        seats: s.seats,
        windows: s.windows,
        classes,
        supplies,
        has_first: s.first != 0,
        first: s.first,
        has_balances: s.has_balances,
        balances,
        has_weights: s.has_weights,
        weights,
    }
}

// Cells as the library's grid.
pub fn grid_of(cells: [u16; 12]) -> Grid {
    let mut grid = [[0u16; 24]; 32];
    for k in 0..12usize {
        let i = k / 3;
        let w = k % 3;
        grid[i][w] = cells[k];
    }
    grid
}

// And back.
fn cells_of(grid: Grid) -> [u16; 12] {
    let mut cells = [0u16; 12];
    for k in 0..12usize {
        let i = k / 3;
        let w = k % 3;
        cells[k] = grid[i][w];
    }
    cells
}

// A day of a small book.
pub fn small_of(day: Day) -> Small {
    let book = day.book;
    let classes = book.classes;
    let supplies = book.supplies;
    let balances = book.balances;
    let weights = book.weights;
    Small {
        seats: book.seats,
        windows: book.windows,
        classes,
        supplies,
        caps: cells_of(day.caps.to_grid()),
        first: book.first,
        has_balances: book.has_balances,
        balances,
        has_weights: book.has_weights,
        weights,
    }
}

// And its sheet.
pub fn sheet_of(day: Day) -> [u16; 12] {
    cells_of(day.sheet.to_grid())
}

// Where the cell of a place lies in a sheet body, counted in fields. The book has at most 3 windows.
fn field_of(k: usize, windows: usize) -> usize
    requires { k < 12 }
    ensures { result < 12 }
{
    match windows {
        1 => k / 3,
        2 => 2 * (k / 3) + k % 3,
        _ => k,
    }
}

// The cells of a sheet body, seat by seat and within a seat window by window.
pub fn cells_in(body: &[u8], seats: usize, windows: usize) -> [u16; 12] {
    let mut cells = [0u16; 12];
    for k in 0..12usize {
        if (k / 3 < seats) & (k % 3 < windows) {
            let at = 2 * field_of(k, windows);
            cells[k] = byte(body, at) as u16 + 256 * byte(body, at + 1) as u16;
        }
    }
    cells
}
