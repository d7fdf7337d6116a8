// Weights, and the two tests of an exchange path, on numbers.
#![tactic(auto)]

ghost use Rattle.std.specs.Prelude.{◌≡◌, ◌-◌, ◌≤◌};
ghost use Rattle.fairness.specs.Classes.{ClassWeight};
ghost use Rattle.fairness.specs.Exchange.{improves, ties_wrongly};
ghost use Rattle.fairness.specs.Numbers.{Moderate};

const CLASS_WEIGHTS: [u32; 8] = [1, 2, 3, 5, 8, 12, 20, 40];

// The weight of a fee class.
pub fn weight(class: u16) -> u32
    requires { (1 ≤ class) × (class ≤ 8) }
    ensures { ClassWeight class result }
{
    CLASS_WEIGHTS[class as usize - 1]
}

// Whether a path from this receiver to this donor improves. Levels are compared by cross products, so nothing is lost in a division.
pub fn improves(height: u32, weight: u32, donor_height: u32, donor_weight: u32) -> bool
    requires { Moderate height weight × Moderate donor_height donor_weight }
    ensures { result ≡ improves height weight donor_height donor_weight }
{
    let rest = less_one(donor_height);
    let level = height * donor_weight;
    let donor_level = rest * weight;
    level < donor_level || (level == donor_level && weight < donor_weight)
}

// One less, and 0 for 0.
fn less_one(x: u32) -> u32
    ensures { result ≡ x - 1 }
{
    if x > 0 { x - 1 } else { 0 }
}

// Whether a path from this receiver to this donor ties wrongly.
#[tactic(auto, unfolding(crate::specs::Exchange::ties_wrongly))]
pub fn ties_wrongly(
    height: u32,
    weight: u32,
    position: u32,
    donor_height: u32,
    donor_weight: u32,
    donor_position: u32,
) -> bool
    requires { Moderate height weight × Moderate donor_height donor_weight }
    ensures { result ≡ ties_wrongly height weight position donor_height donor_weight donor_position }
{
    weight == donor_weight && (donor_height == height + 1 && position < donor_position)
}
