// Credits pushed along a path from seat to seat, many at a time.
ghost use Rattle.std.specs.Prelude.{◌≡◌, ◌<◌, ◌≤◌};
ghost use Rattle.fill.specs.Fills.{Keeps};

use crate::steps::Step;
use crate::{passes, shift};
use sheet::Grid;
use sheet::size::Size;

// What a search looks at: who can take and who can give where, noted of a grid, and the paths that the search left.
pub trait Graph {
    // The step by which a seat gives.
    fn step(&self, giver: usize) -> Step
        requires { giver < 32 }
        ensures { result.giver ≡ giver };

    // Notes what a seat can take and give in a window.
    fn note(&mut self, grid: &Grid, caps: &Grid, seat: usize, window: usize)
        requires { (seat < 32) × (window < 24) };
}

// Credits that are to go from a seat to another, through others.
#[derive(Clone, Copy, Debug, PartialEq, Eq)]
pub struct Transfer {
    pub giver: usize,
    pub taker: usize,
    pub amount: u16,
    // A grid has such seats.
    pub ghost in_range: { (giver < 32) × (taker < 32) },
}

// Notes what a seat can take and give in the first windows.
fn note_seat<G: Graph>(graph: &mut G, grid: &Grid, caps: &Grid, seat: usize, windows: usize)
    requires { (seat < 32) × (windows ≤ 24) }
{
    for w in 0..windows {
        graph.note(grid, caps, seat, w);
    }
}

// The same for all seats.
pub fn note_all<G: Graph>(graph: &mut G, grid: &Grid, caps: &Grid, size: Size) {
    for i in 0..size.seats {
        note_seat(graph, grid, caps, i, size.windows);
    }
}

// As many of the credits as every step of the path lets through.
fn bottleneck<G: Graph>(graph: &G, grid: &Grid, caps: &Grid, transfer: Transfer) -> u16 {
    let mut giver = transfer.giver;
    let mut most = transfer.amount;
    for _ in 0..32u32 {
        let step = graph.step(giver);
        most = most.min(passes(grid, caps, step));
        giver = step.taker;
        if giver == transfer.taker {
            return most;
        }
    }
    0
}

// Moves as many of the credits along the path as it lets through, the giver's step first, and notes anew who can take and who can give
// there. Returns how many went. A path has a step, also where it ends with the seat that it starts with.
#[tactic(auto, using(crate::proofs::Keeping::keeping))]
pub fn push<G: Graph>(
    grid: &mut Grid,
    graph: &mut G,
    caps: &Grid,
    size: Size,
    transfer: Transfer,
) -> u16
    ensures { Keeps size.seats size.windows caps.now grid.old grid.new }
{
    let amount = bottleneck(graph, grid, caps, transfer);
    let mut giver = transfer.giver;
    for _ in 0..32u32 {
        let step = graph.step(giver);
        shift(grid, caps, size, step, amount);
        graph.note(grid, caps, step.giver, step.window);
        graph.note(grid, caps, step.taker, step.window);
        giver = step.taker;
        if giver == transfer.taker {
            return amount;
        }
    }
    0
}
