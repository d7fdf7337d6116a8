// Lines 10 to 12: values.
#![tactic(auto)]

ghost use Rattle.std.specs.Prelude.{◌≡◌, ◌<◌};
ghost use Rattle.dayfile.specs.Table.{wrong_field, outside, line10, line11, line12, first_of, value_lines};
ghost use Rattle.dayfile.specs.Memory.{found, refused};

use dayfile::{Check, Found, first_of, right_after};
use fields::{field, seats, start, windows};

// The first of n fields from an offset on that is not low to high or, where they are to rise, not greater than the one before. Both bytes
// of a field lie before the end.
pub fn wrong_field(file: &[u8], at: usize, n: usize, low: usize, high: usize, rising: bool) -> Found
    requires { (at < 65536) × (n < 2000000000) }
    ensures { found result ≡ wrong_field file.now at n low high rising }
{
    let end = at + 2 * n;
    let mut before = 0;
    let mut p = at;
    while p + 1 < end {
        let x = field(file, p);
        if !right_after(low, high, rising, before, x) {
            return Found::At(p);
        }
        before = x;
        p += 2;
    }
    Found::Nothing
}

// The first of n fields from an offset on that is not low to high.
fn outside(file: &[u8], at: usize, n: usize, low: usize, high: usize) -> Found
    requires { (at < 65536) × (n < 2000000000) }
    ensures { found result ≡ outside file.now at n low high }
{
    wrong_field(file, at, n, low, high, false)
}

// Line 10: class not 1 to 8.
fn class_outside(file: &[u8]) -> Found
    ensures { found result ≡ line10 file.now }
{
    outside(file, start(file, 0), seats(file), 1, 8)
}

// Line 11: supply above 4,095.
fn supply_outside(file: &[u8]) -> Found
    ensures { found result ≡ line11 file.now }
{
    outside(file, start(file, 1), windows(file), 0, 4095)
}

// Line 12: cap above 4,095.
fn cap_outside(file: &[u8]) -> Found
    ensures { found result ≡ line12 file.now }
{
    outside(file, start(file, 2), seats(file) * windows(file), 0, 4095)
}

// Lines 10 to 12.
pub fn check_values(file: &[u8]) -> Check
    ensures { refused result ≡ first_of (value_lines file.now) }
{
    first_of(
        10,
        class_outside(file),
        supply_outside(file),
        cap_outside(file),
    )
}
