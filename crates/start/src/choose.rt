// Who is to receive first, and who is to give first.
ghost use Rattle.std.specs.Prelude.{◌<◌};

use crate::residual::Residual;
use masks::{lowest, remove_lowest};

// What a seat is chosen for: the receiver is the one whose next credit comes first, the donor the one whose last credit comes last.
#[derive(Clone, Copy, Debug, PartialEq, Eq)]
pub(crate) enum Role {
    Receiver,
    Donor,
}

impl Residual {
    // Whether the first of two seats is the better choice.
    fn better(&self, role: Role, a: usize, b: usize) -> bool
        requires { (a < 32) × (b < 32) }
    {
        match role {
            Role::Receiver => self.next[a].precedes(self.next[b]),
            Role::Donor => self.next[b].below().precedes(self.next[a].below()),
        }
    }

    // The best choice of a set of seats and one more.
    pub(crate) fn best(&self, role: Role, set: u32, seat: usize) -> usize
        requires { seat < 32 }
        ensures { result < 32 }
    {
        let mut best = seat;
        let mut rest = set;
        for _ in 0..32u32 {
            if rest == 0 {
                return best;
            }
            let i = lowest(rest);
            rest = remove_lowest(rest);
            if self.better(role, i, best) {
                best = i;
            }
        }
        best
    }
}
