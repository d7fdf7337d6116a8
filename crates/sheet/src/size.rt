// How many seats and windows of a grid are in use.
ghost use Rattle.std.specs.Prelude.{◌≤◌};

#[derive(Clone, Copy, Debug, PartialEq, Eq)]
pub struct Size {
    pub seats: usize,
    pub windows: usize,
    // A grid has so many.
    pub ghost in_range: { (seats ≤ 32) × (windows ≤ 24) },
}
