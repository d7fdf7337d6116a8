// From a settled grid to the standard one of the same book: a fast pass, whose quality nobody proves, and a finisher, which is proved.
#![tactic(auto)]

ghost use Rattle.std.specs.Prelude.{◌≡◌, true, ℕ, ◌≤◌, ◌<◌};
ghost use Rattle.fairness.specs.Sums.{sum};
ghost use Rattle.fairness.specs.Instance.{Instance};
ghost use Rattle.fairness.specs.Exchange.{Settled};
ghost use Rattle.fairness.specs.Standard.{Standard};
ghost use Rattle.model.specs.Book.{cell, Shaped};
ghost use Rattle.instance.specs.Terms.{instance_in, Told, Small};

use climb::climb;
use instance::Terms;
use raise::raise;
use sheet::size::Size;
use sheet::{Grid, row_total};
use topmost::all_blocked;

// Whether each seat has the same total in two grids.
fn same_totals(a: &Grid, b: &Grid, size: Size) -> bool
    ensures { result ≡ true → (i : ℕ) → i < size.seats →
        sum size.windows (cell a.now i) ≡ sum size.windows (cell b.now i) }
{
    let windows = size.windows;
    for i in 0..size.seats {
        if row_total(&a[i], windows) != row_total(&b[i], windows) {
            return false;
        }
    }
    true
}

// The fast pass over a grid, taken back unless it is settled still: the pass keeps each window's sum, so it is where it kept the seats'
// totals.
fn raise_settled(grid: &mut Grid, caps: &Grid, t: Terms)
    requires small { Small t caps.now }
    requires shaped { Shaped 32 24 grid.old }
    requires settled { Settled (instance_in t caps.now) (cell grid.old) }
    ensures { Settled (instance_in t caps.now) (cell grid.new) }
{
    let size = Size {
        seats: t.seats,
        windows: t.windows,
    };
    let settled = *grid;
    raise(grid, caps, size);
    if same_totals(&settled, grid, size) {
        return;
    }
    *grid = settled;
}

// Makes a settled grid the standard one.
pub fn make_standard(grid: &mut Grid, caps: &Grid, t: Terms)
    requires small { Small t caps.now }
    requires shaped { Shaped 32 24 grid.old }
    requires settled { Settled (instance_in t caps.now) (cell grid.old) }
    ensures { (I : Instance) → Told I t caps.now → Standard I (cell grid.new) }
{
    raise_settled(grid, caps, t);
    if all_blocked(grid, caps, t) {
        return;
    }
    climb(grid, caps, t);
}
