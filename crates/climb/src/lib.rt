// From a settled grid to the standard one of the same book, cell by cell in the order in which cells are read. Cycles of moves raise a cell
// by one credit each, until there is none. They leave the cells before it as they are, so no cell is looked at again.
#![tactic(auto)]

ghost use Rattle.std.specs.Prelude.{ℕ, ◌+◌, ◌≤◌, ◌<◌, get_or};
ghost use Rattle.fairness.specs.Exchange.{Settled};
ghost use Rattle.fairness.specs.Standard.{Standard};
ghost use Rattle.fairness.specs.Raising.{later_sheet, later_seats};
ghost use Rattle.model.specs.Book.{cell};
ghost use Rattle.instance.specs.Terms.{instance_in, Small};
ghost use Rattle.masks.specs.Sets.{In};
ghost use Rattle.reach.specs.Graphs.{Collects, Through, Reached};
ghost use Rattle.exchange.specs.Graphs.{Shown};
ghost use Rattle.exchange.specs.Paths.{Writable};
ghost use Rattle.settle.specs.Playing.{AllPlayable, Plays};
ghost use Rattle.climb.specs.Cycles.{ClosesIn, CycleIn, cycle_moves, Finds, Climbed};

use exchange::{below, with_holder};
use instance::Terms;
use masks::{full, insert, intersect, lowest, minus};
use paths::{Path, first_meeting};
use reach::{Graph, union_over};
use settle::play_path;
use sheet::{Grid, Move, Sheet};

// Where a cell stands.
#[derive(Clone, Copy)]
pub struct Place {
    pub seat: usize,
    pub window: usize,
}

// A cycle of moves: an exchange path from a seat to a donor, and the closing move, by which the seat gives that donor a credit.
#[derive(Clone, Copy)]
pub struct Cycle {
    pub closing: Move,
    pub path: Path,
}

// The windows after one in which a row has a credit.
fn held_after(row: &[u16; 24], windows: usize, window: usize) -> u32
    requires { (windows ≤ 24) × (window < 24) }
    ensures { Collects windows (λ w. (window < w) × (0 < get_or row.now w 0)) result }
{
    let none = [0u16; 24];
    let held = below(&none, row, windows);
    minus(held, full(window + 1))
}

// The moves that are possible among the seats after a place, where the place's own seat has room for a credit in its window, and no more.
fn later_graph(grid: &Grid, caps: &Grid, t: Terms, place: Place) -> Graph
    requires seats_bound { (t.seats ≤ 32) × (t.windows ≤ 24) }
    requires seat_lt_seats { (place.seat < t.seats) × (place.window < t.windows) }
    ensures { Shown (later_seats (instance_in t caps.now) place.seat place.window)
        (later_sheet (cell grid.now) place.seat) result }
{
    let seats = t.seats;
    let seat = place.seat;
    let window = place.window;
    let mut rooms = [0u32; 32];
    let mut holders = [0u32; 24];
    rooms[seat] = insert(0, window);
    for p in seat + 1..seats {
        rooms[p] = below(&grid[p], &caps[p], t.windows);
        let more = with_holder(holders, &grid[p], t.windows, p);
        holders = more;
    }
    Graph { rooms, holders }
}

// A cycle that closes in a window: of the seats that are reached, the first with room there takes.
fn closed_in(graph: &Graph, seats: u32, giver: usize, window: usize) -> Cycle
    requires giver_bound { (giver < 32) × (window < 32) }
    requires by_index { (l : ℕ) → In l seats → Reached graph.now giver l }
    requires through { Through seats graph.now.rooms window }
    ensures { ClosesIn graph.now giver window result }
{
    let taker = first_meeting(seats, &graph.rooms, insert(0, window));
    Cycle {
        closing: Move {
            window,
            giver,
            taker,
        },
        path: Path::shortest(graph, giver, taker),
    }
}

// A cycle of a graph that closes in one of the goals, which are windows.
fn cycle_in(graph: &Graph, giver: usize, goals: u32) -> Option<Cycle>
    requires { giver < 32 }
    ensures { CycleIn graph.now giver goals result }
{
    let seats = graph.reached(giver);
    let windows = intersect(union_over(seats, &graph.rooms), goals);
    if windows == 0 {
        return None;
    }
    Some(closed_in(graph, seats, giver, lowest(windows)))
}

// A cycle that raises the cell at a place.
fn find_cycle(grid: &Grid, caps: &Grid, t: Terms, place: Place) -> Option<Cycle>
    requires small { Small t caps.now }
    requires settled { Settled (instance_in t caps.now) (cell grid.now) }
    requires seat_lt_seats { (place.seat < t.seats) × (place.window < t.windows) }
    ensures { Finds (instance_in t caps.now) (cell grid.now) place.seat place.window result }
{
    let seat = place.seat;
    let window = place.window;
    if caps[seat][window] <= grid[seat][window] {
        return None;
    }
    let goals = held_after(&grid[seat], t.windows, window);
    cycle_in(&later_graph(grid, caps, t, place), seat, goals)
}

// The grid after the moves of a cycle, the closing move first.
fn play_cycle(grid: Grid, cycle: &Cycle) -> Grid
    requires writable { Writable cycle.now.path }
    requires all_playable { AllPlayable (cell grid) (cycle_moves cycle.now) }
    ensures { Plays (cell grid) (cycle_moves cycle.now) (cell result) }
{
    let before = Sheet::from_grid(grid);
    let closed = before.play(cycle.closing);
    play_path(closed.to_grid(), &cycle.path)
}

// Raises the cell at a place as far as it goes.
fn raise_cell(grid: &mut Grid, caps: &Grid, t: Terms, place: Place)
    requires small { Small t caps.now }
    requires seat_lt_seats { (place.seat < t.seats) × (place.window < t.windows) }
    requires climbed { Climbed (instance_in t caps.now) (cell grid.old) place.seat place.window }
    ensures { Climbed (instance_in t caps.now) (cell grid.new) place.seat (place.window + 1) }
{
    while let Some(cycle) = find_cycle(grid, caps, t, place) {
        *grid = play_cycle(*grid, &cycle);
    }
}

// Raises the cells of a seat, window by window.
fn raise_row(grid: &mut Grid, caps: &Grid, t: Terms, seat: usize)
    requires small { Small t caps.now }
    requires seat_lt_seats { seat < t.seats }
    requires climbed { Climbed (instance_in t caps.now) (cell grid.old) seat 0 }
    ensures { Climbed (instance_in t caps.now) (cell grid.new) (seat + 1) 0 }
{
    for window in 0..t.windows {
        raise_cell(grid, caps, t, Place { seat, window });
    }
}

// Makes a settled grid the standard one.
// Never made part of its caller: so its locals take stack only while it runs.
#[inline(never)]
pub fn climb(grid: &mut Grid, caps: &Grid, t: Terms)
    requires small { Small t caps.now }
    requires settled { Settled (instance_in t caps.now) (cell grid.old) }
    ensures { Standard (instance_in t caps.now) (cell grid.new) }
{
    for seat in 0..t.seats {
        raise_row(grid, caps, t, seat);
    }
}
