// Numbers of twice the width, which sums and products cannot overflow.
ghost use Rattle.std.specs.Prelude.{◌*◌, ◌≤◌};

pub fn wide(x: u16) -> u32
    ensures { result ≤ 65535 }
{
    x as u32
}

pub fn long(x: u32) -> u64
    ensures { result ≤ 4294967295 }
{
    x as u64
}

// The product of a weight, or of two weights, with one more.
pub fn multiply(a: u32, weight: u32) -> u32
    requires { (a ≤ 1000000) × (weight ≤ 1000) }
    ensures { result ≤ 1000 * a }
{
    a * weight
}

// The whole product.
pub fn times(a: u32, b: u32) -> u64 {
    a as u64 * b as u64
}
