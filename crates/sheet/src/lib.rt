// The data in memory: a sheet of credits as arrays, its sums and its moves.
#![tactic(auto)]

pub mod size;

ghost use Rattle.std.specs.Prelude.{◌≡◌, ℕ, ◌*◌, ◌≤◌, ◌<◌, get_or};
ghost use Rattle.fairness.specs.Sums.{sum};
ghost use Rattle.fairness.specs.Exchange.{play};
ghost use Rattle.model.specs.Book.{cell};
ghost use Rattle.sheet.specs.Sheets.{credit, grid_of, move_of, Added, Playable};

// A seat's cells, one for each window.
#[repr(C)]
#[derive(Clone, Copy)]
pub struct Row {
    pub cells: [u16; 24],
}

// A row for each seat.
#[repr(C)]
#[derive(Clone, Copy)]
pub struct Sheet {
    pub rows: [Row; 32],
}

// One credit in a window, from a giver to a taker.
#[derive(Clone, Copy)]
pub struct Move {
    pub window: usize,
    pub giver: usize,
    pub taker: usize,
}

// A number for each seat and window: the credits of a sheet, or the caps.
pub type Grid = [[u16; 24]; 32];

// A cell as a term of a sum.
fn wide(x: u16) -> u32
    ensures { (result ≡ x) × (result < 65536) }
{
    x as u32
}

// The first cells of a row together.
pub fn row_total(row: &[u16; 24], windows: usize) -> u32
    requires { windows ≤ 24 }
    ensures { (result ≡ sum windows (λ j. get_or row.now j 0)) × (result ≤ 65535 * windows) }
{
    let mut total: u32 = 0;
    for w in 0..windows {
        total += wide(row[w]);
    }
    total
}

// Sums with the first cells of a row added to them.
fn add_row(mut sums: [u32; 24], row: &[u16; 24], windows: usize) -> [u32; 24]
    requires windows_bound { windows ≤ 24 }
    requires by_index { (j : ℕ) → j < windows → get_or sums j 0 ≤ 4294901760 }
    ensures { (j : ℕ) → j < windows → Added (get_or sums j 0) (get_or row.now j 0) (get_or result j 0) }
{
    for j in 0..windows {
        sums[j] += wide(row[j]);
    }
    sums
}

// Each window's cells together.
pub fn placed(grid: &Grid, seats: usize, windows: usize) -> [u32; 24]
    requires { (seats ≤ 32) × (windows ≤ 24) }
    ensures { (j : ℕ) → j < windows → get_or result j 0 ≡ sum seats (λ i. cell grid.now i j) }
{
    let mut sums = [0u32; 24];
    for i in 0..seats {
        let next = add_row(sums, &grid[i], windows);
        sums = next;
    }
    sums
}

impl Sheet {
    // The sheet with no credit anywhere.
    pub fn zero() -> Sheet
        ensures { (i j : ℕ) → credit result i j ≡ 0 }
    {
        let row = Row { cells: [0u16; 24] };
        Sheet { rows: [row; 32] }
    }

    // Each window's cells together.
    pub fn placed(self, seats: usize, windows: usize) -> [u32; 24]
        requires { (seats ≤ 32) × (windows ≤ 24) }
        ensures { (j : ℕ) → j < windows → get_or result j 0 ≡ sum seats (λ i. credit self i j) }
    {
        let grid = self.to_grid();
        placed(&grid, seats, windows)
    }

    // The sheet after a move. The giver and the taker may be one seat, and then nothing changes.
    pub fn play(mut self, m: Move) -> Sheet
        requires { Playable (credit self) (move_of m) }
        ensures { credit result ≡ play (credit self) (move_of m) }
    {
        let w = m.window;
        let g = m.giver;
        let t = m.taker;
        let mut from = self.rows[g];
        from.cells[w] -= 1;
        self.rows[g] = from;
        let mut to = self.rows[t];
        to.cells[w] += 1;
        self.rows[t] = to;
        self
    }

    // The cells as a bare array of arrays.
    pub fn to_grid(self) -> Grid
        ensures { result ≡ grid_of self }
    {
        let mut grid = [[0u16; 24]; 32];
        for i in 0..32 {
            let row = self.rows[i];
            let cells = row.cells;
            grid[i] = cells;
        }
        grid
    }

    // The sheet with the cells of a bare array of arrays.
    pub fn from_grid(grid: Grid) -> Sheet
        ensures { grid_of result ≡ grid }
    {
        let mut sheet = Sheet::zero();
        for i in 0..32 {
            let row = Row { cells: grid[i] };
            sheet.rows[i] = row;
        }
        sheet
    }
}
