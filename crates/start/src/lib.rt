// The fast start: from a filled grid to one that is filled too, which is what is proved, and nearly always settled already, which is not:
// whoever promises that looks for exchange paths again. Shortest augmenting paths with capacity scaling: the lowest receiver takes from
// the highest donor that it reaches, many credits at a time.
#![tactic(auto)]

mod choose;
mod credit;
mod residual;
mod shortest;

ghost use Rattle.std.specs.Prelude.{◌<◌, ◌≤◌};
ghost use Rattle.fill.specs.Fills.{Keeps};

use choose::Role;
use fill::{Transfer, note_all, push};
use instance::Terms;
use masks::{full, lowest, minus};
use residual::Residual;
use sheet::Grid;
use sheet::size::Size;

// One augmentation: the lowest receiver that is active takes from the highest donor that it reaches. Where less than the unit would go,
// nothing goes, and all that are reached are done: every other receiver stands higher. Returns who is active after it.
#[tactic(auto, using(fill::proofs::Keeping::keeping))]
fn turn(grid: &mut Grid, residual: &mut Residual, caps: &Grid, size: Size, active: u32) -> u32
    requires { 0 < active }
    ensures { Keeps size.seats size.windows caps.now grid.old grid.new }
{
    let taker = residual.best(Role::Receiver, active, lowest(active));
    let reached = residual.grow(size.windows, taker);
    let giver = residual.best(Role::Donor, reached, taker);
    let amount = residual.next[taker].affordable(residual.next[giver]);
    if amount < residual.unit {
        return minus(active, reached);
    }
    let transfer = Transfer {
        giver,
        taker,
        amount,
    };
    let credits = push(grid, residual, caps, size, transfer);
    residual.note_heights(transfer, credits);
    active
}

// Augmentations of at least so many credits. With 1 the end is settled if the turns suffice.
#[tactic(auto, using(fill::proofs::Keeping::keeping))]
fn scale(grid: &mut Grid, residual: &mut Residual, caps: &Grid, size: Size, unit: u16)
    ensures { Keeps size.seats size.windows caps.now grid.old grid.new }
{
    residual.unit = unit;
    note_all(residual, grid, caps, size);
    let mut active = full(size.seats);
    for _ in 0..4096u32 {
        if active == 0 {
            return;
        }
        active = turn(grid, residual, caps, size, active);
    }
}

// Evens out the seats of a filled grid, in bulk first and then down to single credits. What is filled stays filled.
#[tactic(auto, using(fill::proofs::Keeping::keeping))]
pub fn even_out(grid: &mut Grid, caps: &Grid, t: Terms)
    requires { (t.seats ≤ 32) × (t.windows ≤ 24) }
    ensures { Keeps t.seats t.windows caps.now grid.old grid.new }
{
    let size = Size {
        seats: t.seats,
        windows: t.windows,
    };
    let mut residual = Residual::new(grid, t);
    scale(grid, &mut residual, caps, size, 64);
    scale(grid, &mut residual, caps, size, 1);
}
