// The order of single credits by level, then weight, then position.
ghost use Rattle.std.specs.Prelude.{◌≡◌, ◌*◌, ◌≤◌};

// What stands at the top of a seat, as the order sees it.
#[derive(Clone, Copy, Debug, PartialEq, Eq)]
pub(crate) struct Credit {
    // The seat's base and its total.
    pub height: u32,
    pub weight: u32,
    // The seat's place in the order of the seat rule.
    pub position: u32,
}

// The whole product.
fn times(a: u32, b: u32) -> u64
    ensures { (result ≡ a * b) × (result ≤ 18446744065119617025) }
{
    u64::from(a) * u64::from(b)
}

impl Credit {
    // The credit below this one.
    pub(crate) fn below(self) -> Credit {
        Credit {
            height: self.height.saturating_sub(1),
            ..self
        }
    }

    // At one level the lower weight goes first, at one weight the lower position.
    fn breaks_tie(self, other: Credit) -> bool {
        (self.weight, self.position) < (other.weight, other.position)
    }

    // Whether this credit comes before another. Levels are compared by cross products.
    pub(crate) fn precedes(self, other: Credit) -> bool {
        let x = times(self.height, other.weight);
        let y = times(other.height, self.weight);
        x < y || x == y && self.breaks_tie(other)
    }

    // How many credits can go one by one from a donor whose next credit is `donor`, so that each comes after the receiver's next: with n of
    // them (receiver's height + n − 1) × (donor's weight) is at most (donor's height − n) × (receiver's weight), and at a tie the receiver
    // goes first. Never more than a cell can hold.
    pub(crate) fn affordable(self, donor: Credit) -> u16 {
        let gap = times(donor.height, self.weight) + u64::from(donor.weight);
        let level = times(self.height, donor.weight) + u64::from(!self.breaks_tie(donor));
        if gap <= level {
            return 0;
        }
        let n = (gap - level) / (u64::from(self.weight) + u64::from(donor.weight));
        n.min(4095) as u16
    }
}
