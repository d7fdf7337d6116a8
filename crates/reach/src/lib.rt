// Which seats a receiver reaches: sets of seats as masks, grown along the moves that are possible.
#![tactic(auto)]

ghost use Rattle.std.specs.Prelude.{◌≡◌, ◌↔◌, ℕ, ◌+◌, ◌<◌, length};
ghost use Rattle.masks.specs.Sets.{In};
ghost use Rattle.reach.specs.Graphs.{UnionOver, Reached, Spread, Grown};

use masks::{Members, full, insert, intersect, minus, union};

// Who can take a credit from whom.
#[derive(Clone, Copy, Debug, PartialEq, Eq)]
pub struct Graph {
    // For each seat the windows in which it is below its cap.
    pub rooms: [u32; 32],
    // For each window the seats that have a credit there.
    pub holders: [u32; 24],
}

// A search outward from a seat, a move at a time.
#[derive(Clone, Copy, Debug, PartialEq, Eq)]
pub struct Wave {
    // The seats that were reached.
    pub seen: u32,
    // Those of them that the last move reached.
    pub front: u32,
    // The windows that nobody has looked into.
    pub windows: u32,
}

// The union of the sets at the members of a set.
pub fn union_over(set: u32, sets: &[u32]) -> u32
    requires { (i : ℕ) → In i set → i < length sets.now }
    ensures { UnionOver set sets.now result }
{
    let mut all = 0;
    for i in Members::of(set) {
        all = union(all, sets[i]);
    }
    all
}

impl Graph {
    // The search outward from a seat, before its first move. It is the same in every graph.
    pub fn start(&self, g: usize) -> Wave
        requires { g < 32 }
        ensures here { Spread self.now g 0 result }
        ensures anywhere { (graph : Graph) → length graph.holders ≡ 24 → Spread graph g 0 result }
    {
        let here = insert(0, g);
        Wave {
            seen: here,
            front: here,
            windows: full(self.holders.len()),
        }
    }

    // All that moves reach from a seat.
    pub fn reached(&self, g: usize) -> u32
        requires { g < 32 }
        ensures { (l : ℕ) → In l result ↔ Reached self.now g l }
    {
        let mut wave = self.start(g);
        while wave.front != 0 {
            wave = wave.outward(self);
        }
        wave.seen
    }
}

impl Wave {
    // One move more. Each window is looked into once: who holds a credit there is reached then.
    pub fn outward(self, graph: &Graph) -> Wave
        requires { (v : ℕ) → In v self.windows → v < 24 }
        ensures grown { Grown self result }
        ensures by_index { (g n : ℕ) → Spread graph.now g n self → Spread graph.now g (n + 1) result }
    {
        let left = intersect(union_over(self.front, &graph.rooms), self.windows);
        let front = minus(union_over(left, &graph.holders), self.seen);
        Wave {
            seen: union(self.seen, front),
            front,
            windows: minus(self.windows, left),
        }
    }
}
