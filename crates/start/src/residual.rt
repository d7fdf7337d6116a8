// The residual graph of a grid: who can take and who can give in each window, what seats are ranked by, and shortest paths.
ghost use Rattle.std.specs.Prelude.{◌<◌, ◌≤◌};

use crate::credit::Credit;
use fill::{Graph, Step, Transfer, room};
use instance::Terms;
use masks::with;
use sheet::{Grid, row_total};

// A seat's step but for the seat: the window where it gives, and who takes there.
#[derive(Clone, Copy, Debug, PartialEq, Eq)]
pub(crate) struct Hop {
    pub window: u8,
    pub taker: u8,
    // A grid has such a window and such a seat.
    ghost in_range: { (window < 24) × (taker < 32) },
}

#[derive(Drop)]
pub(crate) struct Residual {
    // Only room for so many credits counts, and only so many credits held.
    pub unit: u16,
    // For each window the seats that can take there, and those that can give.
    pub takers: [u32; 24],
    pub givers: [u32; 24],
    // For each seat the credit that it would get next.
    pub next: [Credit; 32],
    // The tree of shortest paths: for each seat that was reached, but for the receiver, its hop towards the receiver.
    pub hops: [Hop; 32],
}

impl Residual {
    // That of a grid, with what seats are ranked by. A book's heights never wrap. Who can take and who can give is not noted yet.
    pub(crate) fn new(grid: &Grid, t: Terms) -> Residual
        requires { (t.seats ≤ 32) × (t.windows ≤ 24) }
    {
        let mut residual = Residual {
            unit: 1,
            takers: [0; 24],
            givers: [0; 24],
            next: [Credit {
                height: 0,
                weight: 0,
                position: 0,
            }; 32],
            hops: [Hop {
                window: 0,
                taker: 0,
            }; 32],
        };
        for i in 0..t.seats {
            residual.next[i] = Credit {
                height: t.bases[i].wrapping_add(row_total(&grid[i], t.windows)),
                weight: t.weights[i],
                position: t.positions[i],
            };
        }
        residual
    }

    // Notes that so many credits of a transfer went.
    pub(crate) fn note_heights(&mut self, transfer: Transfer, credits: u16) {
        let taker = &mut self.next[transfer.taker];
        taker.height = taker.height.wrapping_add(u32::from(credits));
        let giver = &mut self.next[transfer.giver];
        giver.height = giver.height.wrapping_sub(u32::from(credits));
    }
}

impl Graph for Residual {
    fn step(&self, giver: usize) -> Step {
        let hop = self.hops[giver];
        Step {
            window: usize::from(hop.window),
            giver,
            taker: usize::from(hop.taker),
        }
    }

    fn note(&mut self, grid: &Grid, caps: &Grid, seat: usize, window: usize) {
        let cell = grid[seat][window];
        let takes = self.unit <= room(cell, caps[seat][window]);
        self.takers[window] = with(self.takers[window], seat, takes);
        self.givers[window] = with(self.givers[window], seat, self.unit <= cell);
    }
}
