// The steps that paths of credits are made of.
ghost use Rattle.std.specs.Prelude.{◌≡◌, ◌<◌};

// Credits that go from a giver to a taker in one window.
#[derive(Clone, Copy, Debug, PartialEq, Eq)]
pub struct Step {
    pub window: usize,
    pub giver: usize,
    pub taker: usize,
    // A grid has such a window and such seats.
    pub ghost in_range: { (window < 24) × ((giver < 32) × (taker < 32)) },
}

impl Step {
    // The step with this window and these seats; if no grid has the window or the taker, a step from the giver to itself.
    pub fn within(window: usize, giver: usize, taker: usize) -> Step
        requires { giver < 32 }
        ensures { result.giver ≡ giver }
    {
        if window < 24 && taker < 32 {
            Step {
                window,
                giver,
                taker,
            }
        } else {
            Step {
                window: 0,
                giver,
                taker: giver,
            }
        }
    }
}
