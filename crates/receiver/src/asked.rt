// What the methods of `Kind` answer, of a kind that may be none: for none, nobody is wanted.
ghost use Rattle.std.specs.Prelude.{◌≡◌, ◌↔◌, ℕ, ◌≤◌, ◌<◌, length, IsNone, MatchOption};
ghost use Rattle.masks.specs.Sets.{In};
ghost use Rattle.receiver.specs.Tests.{Wants};
ghost use Rattle.receiver.specs.Donors.{NoDonor, First};

use crate::{Kind, Score};
use reach::Graph;

// The donors that are wanted for a receiver.
pub fn wanted_by(asked: Option<Kind>, scores: &[Score], g: usize) -> u32
    requires { (length scores.now ≤ 32) × (g < length scores.now) }
    ensures { MatchOption asked (result ≡ 0) (λ kind. (l : ℕ) → In l result ↔ Wants kind scores.now g l) }
{
    match asked {
        Some(kind) => kind.wanted_by(scores, g),
        None => 0,
    }
}

// The first receiver that reaches a donor which is wanted for it.
pub fn first_receiver(asked: Option<Kind>, scores: &[Score], graph: &Graph) -> Option<usize>
    requires { length scores.now ≤ 32 }
    ensures { MatchOption asked (IsNone result)
        (λ kind. MatchOption result (NoDonor kind scores.now graph.now) (First kind scores.now graph.now)) }
{
    asked?.first_receiver(scores, graph)
}
