// Sets of seats, as masks of 32 bits. The empty set is 0. No other crate names an operation on bits.
#![tactic(auto, using(crate::proofs::Machine::operations))]

ghost use Rattle.std.specs.Prelude.{◌≡◌, true, false, ℕ, ◌-◌, ◌≤◌, ◌<◌, min, max, eqb};
ghost use Rattle.masks.specs.Sets.{bit, size_of, Inserted, Removed, Lowest, Full, TakesLowest, seats_left};

// Whether seat i is in the set.
pub fn has(set: u32, i: usize) -> bool
    requires { i < 32 }
    ensures { result ≡ eqb (bit set i) 1 }
{
    (set >> i) & 1 == 1
}

// The set with seat i in it.
pub fn insert(set: u32, i: usize) -> u32
    requires { i < 32 }
    ensures { Inserted set i result }
{
    set | 1u32 << i
}

// The set without seat i.
pub fn remove(set: u32, i: usize) -> u32
    requires { i < 32 }
    ensures { Removed set i result }
{
    set & !(1u32 << i)
}

// The set with seat i in it, or without it.
pub fn with(set: u32, i: usize, on: bool) -> u32
    requires { i < 32 }
    ensures { (on ≡ true → Inserted set i result) × (on ≡ false → Removed set i result) }
{
    if on { insert(set, i) } else { remove(set, i) }
}

pub fn union(a: u32, b: u32) -> u32
    ensures { (k : ℕ) → bit result k ≡ max (bit a k) (bit b k) }
{
    a | b
}

pub fn intersect(a: u32, b: u32) -> u32
    ensures { (k : ℕ) → bit result k ≡ min (bit a k) (bit b k) }
{
    a & b
}

// The seats of a that are not in b.
pub fn minus(a: u32, b: u32) -> u32
    ensures { (k : ℕ) → bit result k ≡ bit a k - bit b k }
{
    a & !b
}

// All seats below n.
pub fn full(n: usize) -> u32
    requires { n ≤ 32 }
    ensures { Full n result }
{
    ((1u64 << n) - 1) as u32
}

// The lowest seat of a set that has one.
pub fn lowest(set: u32) -> usize
    requires { 0 < set }
    ensures { Lowest set result }
{
    set.trailing_zeros() as usize
}

// The set without its lowest seat.
pub fn remove_lowest(set: u32) -> u32
    requires { 0 < set }
    ensures { (k : ℕ) → Lowest set k → Removed set k result }
{
    set & (set - 1)
}

// How many seats are in the set.
pub fn size(set: u32) -> u32
    ensures { result ≡ size_of set }
{
    set.count_ones()
}

// The seats of a set in turn, the lowest first.
#[derive(Clone, Copy, Debug, PartialEq, Eq)]
pub struct Members {
    // The seats that are still to come.
    pub left: u32,
}

impl Members {
    // Those of a set.
    pub fn of(set: u32) -> Members
        ensures { result.left ≡ set }
    {
        Members { left: set }
    }
}

impl Iterator for Members {
    type Item = usize;

    ghost next_gives = { TakesLowest };

    ghost remaining = { seats_left };

    fn next(&mut self) -> Option<usize> {
        if self.left == 0 {
            return None;
        }
        let i = lowest(self.left);
        self.left = remove_lowest(self.left);
        Some(i)
    }
}
