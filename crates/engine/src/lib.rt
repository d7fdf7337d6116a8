// The engine: a settled sheet of an instance in memory. Free credits are handed out, the seats are evened out in bulk, and what is left to
// do is settled. That the end is settled, settling alone shows; nearly always it finds nothing to do.
#![tactic(auto)]

ghost use Rattle.fairness.specs.Instance.{Instance, Feasible};
ghost use Rattle.fairness.specs.Exchange.{Settled};
ghost use Rattle.model.specs.Book.{cell};
ghost use Rattle.instance.specs.Terms.{instance_in, Told, Small};

use fill::fill;
use instance::Terms;
use settle::settle;
use sheet::Grid;
use start::even_out;

// A settled grid, from any feasible one of these terms.
pub fn settled_from(grid: Grid, t: Terms, caps: &Grid) -> Grid
    requires small { Small t caps.now }
    requires feasible { Feasible (instance_in t caps.now) (cell grid) }
    ensures { (I : Instance) → Told I t caps.now → Settled I (cell result) }
{
    let mut settled = grid;
    fill(&mut settled, caps, t);
    even_out(&mut settled, caps, t);
    settle(&mut settled, caps, t);
    settled
}

// A settled grid of these terms.
pub fn settled(t: Terms, caps: &Grid) -> Grid
    requires { Small t caps.now }
    ensures { (I : Instance) → Told I t caps.now → Settled I (cell result) }
{
    settled_from([[0u16; 24]; 32], t, caps)
}
