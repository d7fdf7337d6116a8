// From a grid that is feasible and not wasteful to a settled one of the same book.
#![tactic(auto)]

ghost use Rattle.fairness.specs.Instance.{Instance};
ghost use Rattle.fairness.specs.Exchange.{Settled};
ghost use Rattle.model.specs.Book.{cell};
ghost use Rattle.paths.specs.Paths.{moves_of};
ghost use Rattle.exchange.specs.Paths.{Writable};
ghost use Rattle.fill.specs.Fills.{Full};
ghost use Rattle.instance.specs.Terms.{instance_in, Told, Small};
ghost use Rattle.settle.specs.Playing.{AllPlayable, Plays};

use exchange::find_path;
use instance::Terms;
use paths::Path;
use sheet::{Grid, Sheet};

// The grid after the moves of an exchange path, played one after another.
pub fn play_path(grid: Grid, path: &Path) -> Grid
    requires writable { Writable path.now }
    requires all_playable { AllPlayable (cell grid) (moves_of path.now) }
    ensures { Plays (cell grid) (moves_of path.now) (cell result) }
{
    let mut after = Sheet::from_grid(grid);
    for m in path.moves() {
        after = after.play(*m);
    }
    after.to_grid()
}

// Makes a grid a settled one of the same book: exchange paths are played until none is left.
pub fn settle(grid: &mut Grid, caps: &Grid, t: Terms)
    requires small { Small t caps.now }
    requires full { Full (instance_in t caps.now) (cell grid.old) }
    ensures { (I : Instance) → Told I t caps.now → Settled I (cell grid.new) }
{
    while let Some(found) = find_path(grid, caps, t) {
        *grid = play_path(*grid, &found.path);
    }
}
