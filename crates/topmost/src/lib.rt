// Whether every cell of a settled grid is topmost: no settled grid with the same cells before it has more there. One sweep over the seats,
// from the last one up, shows it for all cells. For each window it keeps a set of windows, closed under what the seats so far can pass on.
#![tactic(auto)]

ghost use Rattle.std.specs.Prelude.{◌≡◌, true, ℕ, ◌≤◌, ◌<◌};
ghost use Rattle.masks.specs.Sets.{In};
ghost use Rattle.reach.specs.Graphs.{set_at};
ghost use Rattle.model.specs.Book.{cell};
ghost use Rattle.instance.specs.Terms.{instance_in};
ghost use Rattle.topmost.specs.Sweep.{Clear, Widened, Grows, AllBlocked};

use exchange::below;
use instance::Terms;
use masks::{full, has, insert, intersect, minus, union};
use reach::union_over;
use sheet::Grid;

// Each window by itself.
fn singles() -> [u32; 24]
    ensures { (w : ℕ) → w < 24 → In w (set_at result w) }
{
    let mut sets = [0u32; 24];
    for w in 0..24usize {
        sets[w] = insert(0, w);
    }
    sets
}

// Whether a seat holds no credit in what its windows with room lead to, as far as that is after the window itself.
fn row_clear(sets: [u32; 24], rooms: u32, holds: u32, windows: usize) -> bool
    requires { windows ≤ 24 }
    ensures { result ≡ true → Clear windows sets rooms holds }
{
    for j in 0..windows {
        if has(rooms, j) {
            let after = minus(holds, full(j + 1));
            if intersect(sets[j], after) != 0 {
                return false;
            }
        }
    }
    true
}

// A set, with what lies beyond a seat where the seat holds a credit in the set.
fn widened(set: u32, holds: u32, beyond: u32) -> u32
    ensures { Widened set holds (λ v. In v beyond) result }
{
    if intersect(set, holds) != 0 {
        return union(set, beyond);
    }
    set
}

// The sets with one seat more: where it holds a credit in a set, the set takes in all that the seat's windows with room lead to.
fn grown(sets: [u32; 24], rooms: u32, holds: u32, windows: usize) -> [u32; 24]
    requires windows_bound { windows ≤ 24 }
    requires by_index { (w : ℕ) → In w rooms → w < 24 }
    ensures { Grows windows sets rooms holds result }
{
    let beyond = union_over(rooms, &sets);
    let mut all = sets;
    for w in 0..windows {
        all[w] = widened(sets[w], holds, beyond);
    }
    all
}

// Whether sets of windows show that no cell can be raised. Where one can be raised, they do not.
pub fn all_blocked(grid: &Grid, caps: &Grid, t: Terms) -> bool
    requires { (t.seats ≤ 32) × (t.windows ≤ 24) }
    ensures { result ≡ true → AllBlocked (instance_in t caps.now) (cell grid.now) }
{
    let windows = t.windows;
    let none = [0u16; 24];
    let mut sets = singles();
    let mut i = t.seats;
    while 0 < i {
        i -= 1;
        let rooms = below(&grid[i], &caps[i], windows);
        let holds = below(&none, &grid[i], windows);
        if !row_clear(sets, rooms, holds, windows) {
            return false;
        }
        let next = grown(sets, rooms, holds, windows);
        sets = next;
    }
    true
}
