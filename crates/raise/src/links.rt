// The links of a grid: through which seats credits can go from window to window, and the search tree over them.
ghost use Rattle.std.specs.Prelude.{◌≤◌, ◌<◌};

use fill::{Graph, Step};
use masks::{has, with};
use sheet::Grid;

#[derive(Drop)]
pub(crate) struct Links {
    // For each seat the windows in which it is below its cap.
    pub rooms: [u32; 32],
    // For each window the seats with a credit there.
    pub holders: [u32; 32],
    // The search tree: for each window the seat that takes there, and for each such seat the window in which it gives.
    pub takers: [usize; 32],
    pub windows: [usize; 32],
}

impl Links {
    // Links of which none is noted yet, and an empty tree.
    pub(crate) fn new() -> Links {
        Links {
            rooms: [0; 32],
            holders: [0; 32],
            takers: [0; 32],
            windows: [0; 32],
        }
    }

    // The windows in which a seat has a credit.
    pub(crate) fn held_by(&self, windows: usize, seat: usize) -> u32
        requires { (windows ≤ 24) × (seat < 32) }
    {
        let mut held = 0;
        for w in 0..windows {
            held = with(held, w, has(self.holders[w], seat));
        }
        held
    }
}

impl Graph for Links {
    // Where the tree has no step, one from the seat to itself.
    fn step(&self, giver: usize) -> Step {
        let window = self.windows[giver];
        let taker = self.takers.get(window).copied().unwrap_or(giver);
        Step::within(window, giver, taker)
    }

    fn note(&mut self, grid: &Grid, caps: &Grid, seat: usize, window: usize) {
        let cell = grid[seat][window];
        let below = cell < caps[seat][window];
        self.rooms[seat] = with(self.rooms[seat], window, below);
        self.holders[window] = with(self.holders[window], seat, 0 < cell);
    }
}
