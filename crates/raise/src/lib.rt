// The fast pass to the standard sheet: from a filled grid to one that is filled too, which is what is proved, and nearly always the
// standard one of its totals already, which is not. Cells are raised in reading order, each as far as cycles allow: the seat takes in the
// cell's window from a later seat, that one takes elsewhere from another, and so on, and the last takes from the first in a window behind
// the cell. So every total stays, and so do all cells before.
#![tactic(auto)]

mod links;
mod search;

ghost use Rattle.std.specs.Prelude.{◌<◌};
ghost use Rattle.fill.specs.Fills.{Keeps};

use fill::{Transfer, note_all, push};
use links::Links;
use masks::{full, has, intersect, lowest, minus, union, with};
use search::Cell;
use sheet::Grid;
use sheet::size::Size;

// Raises the cells of a seat, always the first that is below its cap and not closed. Closed are the windows of each search that hit no
// goal: as long as this row lasts, none is reached from there. A turn closes a window or saturates a step of a cycle.
#[tactic(auto, using(fill::proofs::Keeping::keeping))]
fn raise_row(grid: &mut Grid, links: &mut Links, caps: &Grid, size: Size, seat: usize)
    requires { seat < size.seats }
    ensures { Keeps size.seats size.windows caps.now grid.old grid.new }
{
    let later = minus(full(size.seats), full(seat + 1));
    // Once around: from the seat to itself, as many credits as a path lets through.
    let cycle = Transfer {
        giver: seat,
        taker: seat,
        amount: u16::MAX,
    };
    let mut held = links.held_by(size.windows, seat);
    let mut closed = 0;
    for _ in 0..1024u32 {
        let open = minus(links.rooms[seat], closed);
        if open == 0 {
            return;
        }
        let window = lowest(open);
        let goals = minus(held, full(window + 1));
        if goals == 0 {
            return;
        }
        let cell = Cell {
            seat,
            window,
            later,
            goals,
        };
        let found = links.search(cell);
        let hit = intersect(found, goals);
        if hit == 0 {
            closed = union(closed, found);
        } else {
            push(grid, links, caps, size, cycle);
            let last = lowest(hit);
            held = with(held, last, has(links.holders[last], seat));
        }
    }
}

// Raises the cells of a filled grid, seat by seat. What is filled stays filled.
#[tactic(auto, using(fill::proofs::Keeping::keeping))]
pub fn raise(grid: &mut Grid, caps: &Grid, size: Size)
    ensures { Keeps size.seats size.windows caps.now grid.old grid.new }
{
    let mut links = Links::new();
    note_all(&mut links, grid, caps, size);
    for i in 0..size.seats {
        raise_row(grid, &mut links, caps, size, i);
    }
}
