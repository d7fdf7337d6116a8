// The search on scores and a graph in memory: the first receiver that reaches a donor, and a shortest path between the two.
#![tactic(auto)]

ghost use Rattle.std.specs.Prelude.{◌≤◌, length, MatchOption};
ghost use Rattle.receiver.specs.Donors.{NoDonor};
ghost use Rattle.search.specs.Steps.{FirstOf, Finds};

use masks::{intersect, lowest};
use paths::Path;
use reach::Graph;
use receiver::{Kind, Score};

// An exchange that is wanted: the path, and what for. The path stands first: behind `kind` it would be copied once more on the stack.
#[derive(Clone, Copy)]
pub struct Exchange {
    pub path: Path,
    pub kind: Kind,
}

// Between whom an exchange is wanted, and what for.
#[derive(Clone, Copy, Debug, PartialEq, Eq)]
pub struct Pair {
    pub kind: Kind,
    pub receiver: usize,
    pub donor: usize,
}

// The first pair of a kind: the first receiver that reaches a donor which is wanted for it, and its lowest such donor.
fn first_pair(kind: Kind, scores: &[Score], graph: &Graph) -> Option<Pair>
    requires { length scores.now ≤ 32 }
    ensures { MatchOption result (NoDonor kind scores.now graph.now) (FirstOf kind scores.now graph.now) }
{
    let receiver = kind.first_receiver(scores, graph)?;
    let wanted = kind.wanted_by(scores, receiver);
    let donors = intersect(wanted, graph.reached(receiver));
    Some(Pair {
        kind,
        receiver,
        donor: lowest(donors),
    })
}

// The first exchange that improves; where there is none, the first that ties wrongly: by a shortest path between the first pair. The pair
// is found before there is a path, since paths take stack.
pub fn find(scores: &[Score], graph: &Graph) -> Option<Exchange>
    requires { length scores.now ≤ 32 }
    ensures { Finds scores.now graph.now result }
{
    let improving = first_pair(Kind::Improving, scores, graph);
    let pair = improving.or_else(|| first_pair(Kind::WronglyTied, scores, graph))?;
    let path = Path::shortest(graph, pair.receiver, pair.donor);
    Some(Exchange {
        kind: pair.kind,
        path,
    })
}
