// Wanted totals in memory: a row of them read, the terms that aim at them, which seat has too little, and a sheet cut down to them.
#![tactic(auto)]

ghost use Rattle.std.specs.Prelude.{◌≡◌, ℕ, min, ◌+◌, ◌-◌, ◌≤◌, ◌<◌, get_or};
ghost use Rattle.fairness.specs.Sums.{sum};
ghost use Rattle.fairness.specs.Instance.{Instance, Feasible};
ghost use Rattle.fairness.specs.Aiming.{aimed};
ghost use Rattle.model.specs.Book.{Grid, cell};
ghost use Rattle.instance.specs.Terms.{instance_in, Told, Ranged};
ghost use Rattle.wants.specs.Wanted.{want};
ghost use Rattle.wants.specs.Steps.{most_total, Short, trimmed};

use dayfile::Found;
use fields::field;
use fill::lesser;
use instance::Terms;
use sheet::{Grid, row_total};

// The most that a seat's cells can be together: 24 windows of 4,095 credits.
const MOST: u32 = 98280;

// The wanted total of a seat: four bytes of the row, low byte first.
fn want_at(row: &[u8], seat: usize) -> u32
    requires { seat < 32 }
    ensures { result ≡ want row.now seat }
{
    let at = 4 * seat;
    (field(row, at) + 65536 * field(row, at + 2)) as u32
}

// The wanted totals of so many seats.
pub fn wants_of(row: &[u8], seats: usize) -> [u32; 32]
    requires { seats ≤ 32 }
    ensures { (i : ℕ) → i < seats → get_or result i 0 ≡ want row.now i }
{
    let mut wants = [0u32; 32];
    for i in 0..seats {
        wants[i] = want_at(row, i);
    }
    wants
}

// How high a seat starts that wants so much: with what it wants it is at the same height as every other such seat.
fn base_for(want: u32) -> u32
    ensures { result ≡ most_total - want }
{
    if want < MOST { MOST - want } else { 0 }
}

// A seat's number as its place in the order of ties.
fn place(seat: usize) -> u32
    requires { seat < 32 }
    ensures { result ≡ seat }
{
    seat as u32
}

// The terms by which a seat is at the height of the most just where it has what it wants.
pub fn aim(t: Terms, wants: [u32; 32]) -> Terms
    requires { Ranged t }
    ensures ranged { Ranged result }
    ensures told { (I : Instance) (caps : Grid) → Told I t caps → Told (aimed I (λ i. get_or wants i 0) most_total) result caps }
{
    let seats = t.seats;
    let supplies = t.supplies;
    let mut bases = [0u32; 32];
    let mut positions = [0u32; 32];
    for i in 0..seats {
        bases[i] = base_for(wants[i]);
        positions[i] = place(i);
    }
    Terms {
        seats,
        windows: t.windows,
        supplies,
        weights: [1u32; 32],
        bases,
        positions,
    }
}

// What a seat alone can get: over the windows, the lesser of supply and cap.
fn alone_total(supplies: &[u16; 24], row: &[u16; 24], windows: usize) -> u32
    requires { windows ≤ 24 }
    ensures { result ≡ sum windows (λ j. min (get_or supplies.now j 0) (get_or row.now j 0)) }
{
    let mut total: u32 = 0;
    for w in 0..windows {
        total += lesser(supplies[w], row[w]) as u32;
    }
    total
}

// The same for each seat.
pub fn alone_totals(t: Terms, caps: &Grid) -> [u32; 32]
    requires { (t.seats ≤ 32) × (t.windows ≤ 24) }
    ensures { (i : ℕ) → i < t.seats →
        get_or result i 0 ≡ sum t.windows (λ j. min (get_or t.supplies j 0) (cell caps.now i j)) }
{
    let seats = t.seats;
    let windows = t.windows;
    let supplies = t.supplies;
    let mut totals = [0u32; 32];
    for i in 0..seats {
        totals[i] = alone_total(&supplies, &caps[i], windows);
    }
    totals
}

// Each seat's total.
pub fn totals(grid: &Grid, seats: usize, windows: usize) -> [u32; 32]
    requires { (seats ≤ 32) × (windows ≤ 24) }
    ensures { (i : ℕ) → i < seats → get_or result i 0 ≡ sum windows (λ j. cell grid.now i j) }
{
    let mut totals = [0u32; 32];
    for i in 0..seats {
        totals[i] = row_total(&grid[i], windows);
    }
    totals
}

// The first seat whose total is below what it wants.
pub fn first_short(totals: [u32; 32], wants: [u32; 32], seats: usize) -> Found
    requires { seats ≤ 32 }
    ensures { Short seats totals wants result }
{
    for i in 0..seats {
        if totals[i] < wants[i] {
            return Found::At(i);
        }
    }
    Found::Nothing
}

// As much of a cell as is left of a want.
fn kept(cell: u16, left: u32) -> u16
    ensures { result ≡ min cell left }
{
    if (cell as u32) < left {
        cell
    } else {
        left as u16
    }
}

// What a want takes of the lesser of two rows, window by window.
fn take_row(left: &[u16; 24], most: &[u16; 24], want: u32, windows: usize) -> [u16; 24]
    requires { windows ≤ 24 }
    ensures { (j : ℕ) → j < windows →
        get_or result j 0 ≡ trimmed want (λ k. min (get_or left.now k 0) (get_or most.now k 0)) j }
{
    let mut cells = [0u16; 24];
    let mut missing = want;
    for w in 0..windows {
        let cell = kept(lesser(left[w], most[w]), missing);
        cells[w] = cell;
        missing -= cell as u32;
    }
    cells
}

// What a row leaves of another.
fn less_row(mut left: [u16; 24], row: &[u16; 24], windows: usize) -> [u16; 24]
    requires windows_bound { windows ≤ 24 }
    requires by_index { (j : ℕ) → j < windows → get_or row.now j 0 ≤ get_or left j 0 }
    ensures { (j : ℕ) → j < windows → get_or result j 0 + get_or row.now j 0 ≡ get_or left j 0 }
{
    for w in 0..windows {
        left[w] -= row[w];
    }
    left
}

// The seats served in turn: each takes what it wants, as far as its caps and what those before it left allow.
pub fn serve(t: Terms, caps: &Grid, wants: [u32; 32]) -> Grid
    requires { (t.seats ≤ 32) × (t.windows ≤ 24) }
    ensures { Feasible (instance_in t caps.now) (cell result) }
{
    let seats = t.seats;
    let windows = t.windows;
    let mut left = t.supplies;
    let mut grid = [[0u16; 24]; 32];
    for i in 0..seats {
        let row = take_row(&left, &caps[i], wants[i], windows);
        grid[i] = row;
        let rest = less_row(left, &row, windows);
        left = rest;
    }
    grid
}

// The first credits of each seat's row, as many as it wants.
pub fn trim(grid: &Grid, wants: [u32; 32], seats: usize, windows: usize) -> Grid
    requires { (seats ≤ 32) × (windows ≤ 24) }
    ensures { (i j : ℕ) → i < seats → j < windows →
        cell result i j ≡ trimmed (get_or wants i 0) (cell grid.now i) j }
{
    let mut sheet = [[0u16; 24]; 32];
    for i in 0..seats {
        let row = take_row(&grid[i], &grid[i], wants[i], windows);
        sheet[i] = row;
    }
    sheet
}
