// Shortest exchange paths on a graph in memory: how many moves lead from a receiver to a donor, and the moves from the donor back.
#![tactic(auto)]

ghost use Rattle.std.specs.Prelude.{◌≡◌, ℕ, ◌≤◌, ◌<◌, length, take};
ghost use Rattle.masks.specs.Sets.{bit, In};
ghost use Rattle.reach.specs.Graphs.{set_at, Collects, Reached};
ghost use Rattle.paths.specs.Layers.{Meets, Layers, Fewest};
ghost use Rattle.paths.specs.Steps.{Gives, GivesBy, Leading};

use masks::{has, insert, intersect, lowest};
use reach::Graph;
use sheet::Move;

// An exchange path from a receiver to a donor: as many of the moves as it counts, from the receiver's on.
#[derive(Clone, Copy)]
pub struct Path {
    pub receiver: usize,
    pub donor: usize,
    pub count: usize,
    pub moves: [Move; 31],
    pub ghost few: { count ≤ 31 },
}

// The numbers of the sets that have l.
fn column(sets: &[u32], l: usize) -> u32
    requires { (length sets.now ≤ 32) × (l < 32) }
    ensures { Collects (length sets.now) (λ i. In l (set_at sets.now i)) result }
{
    let mut all = 0;
    for (i, set) in sets.iter().enumerate() {
        if has(*set, l) {
            all = insert(all, i);
        }
    }
    all
}

// A member of a set whose own set meets another.
pub fn first_meeting(set: u32, sets: &[u32], other: u32) -> usize
    requires sets_len_bound { length sets.now ≤ 32 }
    requires by_index { (i : ℕ) × Meets set sets.now other i }
    ensures in_bounds { result < length sets.now }
    ensures meets { Meets set sets.now other result }
{
    for (i, own) in sets.iter().enumerate() {
        if has(set, i) && intersect(*own, other) != 0 {
            return i;
        }
    }
    unreachable!()
}

// What each number of moves reaches from a seat, 0 to 31 moves.
fn layers(graph: &Graph, g: usize) -> [u32; 32]
    requires { g < 32 }
    ensures layers { Layers graph.now g result }
    ensures all { (l : ℕ) → Reached graph.now g l → In l (set_at result 31) }
{
    let mut wave = graph.start(g);
    let mut sets = [0u32; 32];
    for set in sets.iter_mut() {
        *set = wave.seen;
        if wave.front != 0 {
            wave = wave.outward(graph);
        }
    }
    sets
}

// The fewest moves that reach a seat.
fn fewest(sets: &[u32; 32], l: usize) -> usize
    requires { (l < 32) × (bit (set_at sets.now 31) l ≡ 1) }
    ensures { Fewest sets.now l result }
{
    sets.iter().position(|set| has(*set, l)).unwrap()
}

// A move by which a seat gives to a member of a set.
fn move_from(graph: &Graph, set: u32, giver: usize) -> Move
    requires { (giver < 32) × Gives graph.now set giver }
    ensures { GivesBy graph.now set giver result }
{
    let windows = column(&graph.holders, giver);
    let taker = first_meeting(set, &graph.rooms, windows);
    let window = lowest(intersect(graph.rooms[taker], windows));
    Move {
        window,
        giver,
        taker,
    }
}

// The moves of a shortest path to a donor, from the layers that each number of moves reaches: from the donor back, the taker of each move
// is a seat of the layer before.
fn moves_to(graph: &Graph, sets: &[u32; 32], donor: usize, count: usize) -> [Move; 31]
    requires { Fewest sets.now donor count × ((g : ℕ) × Layers graph.now g sets.now) }
    ensures { Leading graph.now sets.now donor count result }
{
    let none = Move {
        window: 0,
        giver: 0,
        taker: 0,
    };
    let mut moves = [none; 31];
    let mut giver = donor;
    for r in (0..count).rev() {
        let m = move_from(graph, sets[r], giver);
        moves[r] = m;
        giver = m.taker;
    }
    moves
}

impl Path {
    ghost use Rattle.paths.specs.Paths.{Nearest};

    // One from a receiver to a donor that has the fewest moves.
    pub fn shortest(graph: &Graph, receiver: usize, donor: usize) -> Path
        requires { (receiver < 32) × Reached graph.now receiver donor }
        ensures { Nearest graph.now receiver donor result }
    {
        let sets = layers(graph, receiver);
        let count = fewest(&sets, donor);
        Path {
            receiver,
            donor,
            count,
            moves: moves_to(graph, &sets, donor, count),
        }
    }

    // Its moves, the receiver's first.
    pub fn moves(&self) -> &[Move]
        ensures { result.now ≡ take self.now.count self.now.moves }
    {
        &self.moves[..self.count]
    }
}
