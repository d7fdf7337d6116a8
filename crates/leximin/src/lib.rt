// The leximin order: levels by cross products, and which of two lists of them is higher.
#![tactic(auto)]

ghost use Rattle.std.specs.Prelude.{◌≡◌, true, ◌↔◌, ◌*◌, ◌≤◌, ltb};
ghost use Rattle.fairness.specs.Leximin.{NoHigher, Higher};
ghost use Rattle.leximin.specs.Levels.{list_in, Bounded, AllBounded};

// A height and a weight: the fraction height / weight.
#[derive(Clone, Copy)]
pub struct Level {
    pub height: u32,
    pub weight: u32,
}

// Whether level p is below level q. Nothing is lost in a division.
pub fn is_below(p: Level, q: Level) -> bool
    requires { Bounded p × Bounded q }
    ensures { result ≡ ltb (p.height * q.weight) (q.height * p.weight) }
{
    p.height * q.weight < q.height * p.weight
}

// Whether the second of two lists of n levels is higher: above the first at the first place where they differ.
pub fn is_higher(first: [Level; 32], second: [Level; 32], n: usize) -> bool
    requires { (n ≤ 32) × (AllBounded n first × AllBounded n second) }
    ensures { (result ≡ true) ↔ Higher NoHigher (list_in n first) (list_in n second) }
{
    for i in 0..n {
        let p = first[i];
        let q = second[i];
        if is_below(p, q) {
            return true;
        }
        if is_below(q, p) {
            return false;
        }
    }
    false
}
