// The search for exchange paths on a sheet, which the marker and settling call: scores and a graph of it, then the search on those.
#![tactic(auto)]

ghost use Rattle.std.specs.Prelude.{◌≡◌, ◌⊎◌, ◌↔◌, ℕ, ◌≤◌, ◌<◌, get_or, IfSome};
ghost use Rattle.fairness.specs.Instance.{Instance, Feasible};
ghost use Rattle.model.specs.Book.{cell};
ghost use Rattle.instance.specs.Terms.{instance_in, Told, Shows, Small};
ghost use Rattle.masks.specs.Sets.{In};
ghost use Rattle.reach.specs.Graphs.{set_at, Collects};
ghost use Rattle.exchange.specs.Graphs.{Shown};
ghost use Rattle.exchange.specs.Paths.{Writable, Answers};

use instance::Terms;
use reach::Graph;
use receiver::Score;
use search::{Exchange, find};
use sheet::{Grid, row_total};

// The windows in which a row has less than another.
pub fn below(a: &[u16; 24], b: &[u16; 24], windows: usize) -> u32
    requires { windows ≤ 24 }
    ensures { Collects windows (λ w. get_or a.now w 0 < get_or b.now w 0) result }
{
    let mut set: u32 = 0;
    for w in 0..windows {
        if a[w] < b[w] {
            set = masks::insert(set, w);
        }
    }
    set
}

// The holders of each window with a further seat, whose cells are given.
pub fn with_holder(holders: [u32; 24], cells: &[u16; 24], windows: usize, seat: usize) -> [u32; 24]
    requires { (windows ≤ 24) × (seat < 32) }
    ensures { (w i : ℕ) → In i (set_at result w) ↔
        (In i (set_at holders w) ⊎ ((i ≡ seat) × ((w < windows) × (0 < get_or cells.now w 0)))) }
{
    let mut all = holders;
    for w in 0..windows {
        if cells[w] > 0 {
            all[w] = masks::insert(all[w], seat);
        }
    }
    all
}

// Who can take a credit from whom on a sheet.
pub fn graph_of(grid: &Grid, caps: &Grid, t: Terms) -> Graph
    requires { (t.seats ≤ 32) × (t.windows ≤ 24) }
    ensures { Shown (instance_in t caps.now) (cell grid.now) result }
{
    let seats = t.seats;
    let windows = t.windows;
    let mut rooms = [0u32; 32];
    let mut holders = [0u32; 24];
    for i in 0..seats {
        rooms[i] = below(&grid[i], &caps[i], windows);
        let more = with_holder(holders, &grid[i], windows, i);
        holders = more;
    }
    Graph { rooms, holders }
}

// An exchange that improves, and where there is none one that ties wrongly.
pub fn find_path(grid: &Grid, caps: &Grid, t: Terms) -> Option<Exchange>
    requires small { Small t caps.now }
    requires feasible { Feasible (instance_in t caps.now) (cell grid.now) }
    ensures writable { IfSome result (λ x. Writable x.path) }
    ensures answers { (I : Instance) (S : ℕ → ℕ → ℕ) → Told I t caps.now → Shows t S grid.now → Answers I S result }
{
    let none = Score {
        height: 0,
        weight: 1,
        position: 0,
    };
    let mut scores = [none; 32];
    for seat in 0..t.seats {
        scores[seat] = Score {
            height: t.bases[seat] + row_total(&grid[seat], t.windows),
            weight: t.weights[seat],
            position: t.positions[seat],
        };
    }
    find(&scores[..t.seats], &graph_of(grid, caps, t))
}
