// The first receiver that reaches a donor which is wanted for it, on scores and a graph in memory.
#![tactic(auto)]

ghost use Rattle.std.specs.Prelude.{◌≡◌, ◌↔◌, ℕ, ◌<◌, IsTrue};
ghost use Rattle.fairness.specs.Numbers.{Moderate};
ghost use Rattle.masks.specs.Sets.{bit, In};
ghost use Rattle.reach.specs.Graphs.{Reached};

mod asked;

pub use asked::{first_receiver, wanted_by};
use fairness::{improves, ties_wrongly};
use masks::{Members, full, insert, intersect, lowest, minus, remove_lowest, union};
use reach::Graph;

// What an exchange path is wanted for: it improves the sheet, or it ties wrongly.
#[derive(Clone, Copy, Debug, PartialEq, Eq)]
pub enum Kind {
    Improving,
    WronglyTied,
}

// What the tests look at of a seat: its height, its weight, and its place in the order of the seat rule.
#[derive(Clone, Copy, Debug, PartialEq, Eq)]
pub struct Score {
    pub height: u32,
    pub weight: u32,
    pub position: u32,
    pub ghost moderate: { Moderate height weight },
}

// Whether a seat reaches one of the seats that are wanted for it. Of each seat that is reached, the windows in which it has room are looked
// at in turn, each once: who holds a credit there was seen then.
fn reaches_any(graph: &Graph, g: usize, wanted: u32) -> bool
    requires { (g < 32) × (bit wanted g ≡ 0) }
    ensures { IsTrue result ↔ ((l : ℕ) × (Reached graph.now g l × In l wanted)) }
{
    if wanted == 0 {
        return false;
    }
    let mut seen = insert(0, g);
    let mut front = seen;
    let mut windows = full(graph.holders.len());
    while front != 0 {
        let k = lowest(front);
        front = remove_lowest(front);
        let left = intersect(graph.rooms[k], windows);
        windows = minus(windows, left);
        for w in Members::of(left) {
            let new = minus(graph.holders[w], seen);
            if intersect(new, wanted) != 0 {
                return true;
            }
            front = union(front, new);
            seen = union(seen, new);
        }
    }
    false
}

impl Kind {
    ghost use Rattle.std.specs.Prelude.{◌≡◌, ◌↔◌, ℕ, ◌≤◌, ◌<◌, length, IsTrue, MatchOption};
    ghost use Rattle.masks.specs.Sets.{In};
    ghost use Rattle.receiver.specs.Tests.{test_by, Wants};
    ghost use Rattle.receiver.specs.Donors.{Donor, NoDonor, First};

    // Whether an exchange path of this kind is wanted, by the scores of the receiver and of the donor.
    fn wants(self, receiver: Score, donor: Score) -> bool
        ensures { result ≡ test_by self receiver donor }
    {
        match self {
            Kind::Improving => improves(
                receiver.height,
                receiver.weight,
                donor.height,
                donor.weight,
            ),
            Kind::WronglyTied => ties_wrongly(
                receiver.height,
                receiver.weight,
                receiver.position,
                donor.height,
                donor.weight,
                donor.position,
            ),
        }
    }

    // The donors that are wanted for a receiver.
    pub fn wanted_by(self, scores: &[Score], g: usize) -> u32
        requires { (length scores.now ≤ 32) × (g < length scores.now) }
        ensures { (l : ℕ) → In l result ↔ Wants self scores.now g l }
    {
        let receiver = scores[g];
        let mut set = 0;
        for (l, donor) in scores.iter().enumerate() {
            if self.wants(receiver, *donor) {
                set = insert(set, l);
            }
        }
        set
    }

    // Whether a receiver reaches a donor that is wanted for it.
    fn has_donor(self, scores: &[Score], graph: &Graph, g: usize) -> bool
        requires { (length scores.now ≤ 32) × (g < length scores.now) }
        ensures { IsTrue result ↔ ((l : ℕ) × Donor self scores.now graph.now g l) }
    {
        reaches_any(graph, g, self.wanted_by(scores, g))
    }

    // The first receiver that reaches a donor which is wanted for it.
    pub fn first_receiver(self, scores: &[Score], graph: &Graph) -> Option<usize>
        requires { length scores.now ≤ 32 }
        ensures { MatchOption result (NoDonor self scores.now graph.now) (First self scores.now graph.now) }
    {
        (0..scores.len()).find(|g| self.has_donor(scores, graph, *g))
    }
}
