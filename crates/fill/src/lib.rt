// Free credits handed out: window by window, seat by seat, up to the caps. Credits moved: as many as a step lets through.
#![tactic(auto)]

mod paths;
mod steps;

ghost use Rattle.std.specs.Prelude.{◌≡◌, min, ◌+◌, ◌-◌, ◌≤◌, ◌<◌};
ghost use Rattle.fairness.specs.Sums.{sum};
ghost use Rattle.fairness.specs.Instance.{Feasible};
ghost use Rattle.model.specs.Book.{cell, Shaped};
ghost use Rattle.instance.specs.Terms.{instance_in};
ghost use Rattle.fill.specs.Fills.{FeasibleAt, Handed, Filled, Keeps, Passes};

use instance::Terms;
pub use paths::{Graph, Transfer, note_all, push};
use sheet::Grid;
pub use sheet::size::Size;
pub use steps::Step;

pub fn lesser(a: u16, b: u16) -> u16
    ensures { result ≡ min a b }
{
    a.min(b)
}

// How far a cell is below its cap. So many more never overflow it.
pub fn room(cell: u16, cap: u16) -> u16
    ensures { (result ≡ cap - cell) × (cell + result ≤ 65535) }
{
    cap.saturating_sub(cell)
}

// As many credits as can move from a giver to a taker in a window: the giver has them, and the taker has room for them.
fn passes(grid: &Grid, caps: &Grid, step: Step) -> u16
    ensures { Passes caps.now grid.now step result }
{
    let w = step.window;
    let g = step.giver;
    let t = step.taker;
    grid[g][w].min(room(grid[t][w], caps[t][w]))
}

// Moves the credits asked for, or as many as the step lets through. A step outside the book does nothing. So whoever asks, what is filled
// stays filled.
fn shift(grid: &mut Grid, caps: &Grid, size: Size, step: Step, amount: u16)
    ensures { Keeps size.seats size.windows caps.now grid.old grid.new }
{
    let w = step.window;
    let g = step.giver;
    let t = step.taker;
    if size.windows <= w || size.seats <= g || size.seats <= t {
        return;
    }
    let a = amount.min(passes(grid, caps, step));
    grid[g][w] -= a;
    grid[t][w] += a;
}

// What is left of a window's supply.
fn left_in(grid: &Grid, seats: usize, window: usize, supply: u16) -> u16
    requires seats_bound { (seats ≤ 32) × (window < 24) }
    requires window_bound { sum seats (λ i. cell grid.now i window) ≤ supply }
    ensures { sum seats (λ i. cell grid.now i window) + result ≡ supply }
{
    let mut left = supply;
    for row in &grid[..seats] {
        left -= row[window];
    }
    left
}

// Hands out what is left of a window's supply, seat by seat up to each cap.
fn fill_window(grid: &mut Grid, caps: &Grid, seats: usize, window: usize, supply: u16)
    requires seats_bound { (seats ≤ 32) × (window < 24) }
    requires shaped { Shaped 32 24 grid.old }
    requires feasible_at { FeasibleAt seats window caps.now supply grid.old }
    ensures { Handed seats window caps.now supply grid.old grid.new }
{
    let mut left = left_in(grid, seats, window, supply);
    for i in 0..seats {
        let more = left.min(room(grid[i][window], caps[i][window]));
        grid[i][window] += more;
        left -= more;
    }
}

// Hands out all free credits of a feasible grid.
pub fn fill(grid: &mut Grid, caps: &Grid, t: Terms)
    requires seats_bound { (t.seats ≤ 32) × (t.windows ≤ 24) }
    requires shaped { Shaped 32 24 grid.old }
    requires feasible { Feasible (instance_in t caps.now) (cell grid.old) }
    ensures { Filled t.seats t.windows caps.now t.supplies grid.new }
{
    for w in 0..t.windows {
        fill_window(grid, caps, t.seats, w, t.supplies[w]);
    }
}
