// The search for a cycle that raises a cell, over windows, through later seats.
ghost use Rattle.std.specs.Prelude.{◌<◌};

use crate::links::Links;
use masks::{insert, intersect, lowest, minus, remove_lowest, union};

// A cell to raise: its seat and window, the seats after it, and the goals: windows behind it in which its seat has a credit to give back.
#[derive(Clone, Copy, Debug, PartialEq, Eq)]
pub(crate) struct Cell {
    pub seat: usize,
    pub window: usize,
    pub later: u32,
    pub goals: u32,
}

impl Links {
    // Closes a cycle: the last seat found takes from the first one in a goal.
    fn close(&mut self, seat: usize, taker: usize, goal: usize)
        requires { (seat < 32) × ((taker < 32) × (goal < 32)) }
    {
        self.takers[goal] = taker;
        self.windows[seat] = goal;
    }

    // From the cell's window on: each later seat with a credit in a window that was seen adds the windows in which it is below its cap. A
    // seat is asked once, and the first that is below its cap in a goal ends the search: returns the goals that it can take in. Where none
    // is hit, returns all windows seen. A turn notes one window, or asks one seat, or opens one window, so the turns suffice.
    pub(crate) fn search(&mut self, cell: Cell) -> u32
        requires { (cell.seat < 32) × (cell.window < 32) }
    {
        let mut window = cell.window;
        let mut taker = cell.seat;
        self.takers[window] = taker;
        let mut seen = insert(0, window);
        let mut found = 0;
        let mut front = seen;
        let mut givers = 0;
        let mut left = cell.later;
        for _ in 0..128u32 {
            if found != 0 {
                self.takers[lowest(found)] = taker;
                found = remove_lowest(found);
            } else if givers != 0 {
                taker = lowest(givers);
                givers = remove_lowest(givers);
                self.windows[taker] = window;
                let hit = intersect(self.rooms[taker], cell.goals);
                if hit != 0 {
                    self.close(cell.seat, taker, lowest(hit));
                    return hit;
                }
                found = minus(self.rooms[taker], seen);
                seen = union(seen, found);
                front = union(front, found);
            } else if front != 0 {
                window = lowest(front);
                front = remove_lowest(front);
                givers = intersect(self.holders[window], left);
                left = minus(left, givers);
            } else {
                return seen;
            }
        }
        seen
    }
}
