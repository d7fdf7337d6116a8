// Fields of a file as arrays: the file's numbers at the front, as many as there is room for, and 0 behind them.
ghost use Rattle.std.specs.Prelude.{◌≡◌, [], ℕ, ◌+◌, ◌*◌, ◌<◌, ◌≤◌, length, replicate};
ghost use Rattle.sheet.specs.Sheets.{grid_of};
ghost use Rattle.dayfile.specs.Layout.{fields_at, grid_at};
ghost use Rattle.dayfile.specs.Memory.{sized, held};
ghost use Rattle.fields.specs.Arrays.{Front};

use crate::field;
use sheet::{Row, Sheet};

// The lesser of two numbers.
fn least(a: usize, b: usize) -> usize
    ensures { (result ≤ a) × (result ≤ b) × ((k : ℕ) → k < b → k < a → k < result) }
{
    if a < b { a } else { b }
}

// A field of its two bytes, low byte first.
fn joined(low: u8, high: u8) -> u16
    ensures { result ≡ low + 256 * high }
{
    low as u16 + 256 * (high as u16)
}

// m fields that lie inside the file, to the front of an array: no byte has to be held against the file's end.
fn copy_fields(array: &mut [u16], file: &[u8], at: usize, m: usize)
    requires { (m ≤ length array.old) × (at + 2 * m ≤ length file.now) }
    ensures { Front file.now at m array.old array.new }
{
    let mut p = at;
    let mut i = 0;
    while i < m {
        array[i] = joined(file[p], file[p + 1]);
        p += 2;
        i += 1;
    }
}

// m fields, of which some may lie past the file's end, to the front of an array.
fn read_fields(array: &mut [u16], file: &[u8], at: usize, m: usize)
    requires { (at < 10000000) × (m < 32768) × (m ≤ length array.old) }
    ensures { Front file.now at m array.old array.new }
{
    let mut i = 0;
    while i < m {
        array[i] = field(file, at + 2 * i) as u16;
        i += 1;
    }
}

// n fields from an offset on, to the front of an array of zeros.
pub fn fill(array: &mut [u16], file: &[u8], at: usize, n: usize)
    requires { (at < 10000000) × (n < 32768) }
    ensures { (l : ℕ) → array.old ≡ replicate l 0 → array.new ≡ sized l (fields_at file.now at n) }
{
    let m = least(n, array.len());
    if at + 2 * m <= file.len() {
        copy_fields(array, file, at, m);
    } else {
        read_fields(array, file, at, m);
    }
}

// n fields from an offset on: classes.
pub fn array32(file: &[u8], at: usize, n: usize) -> [u16; 32]
    requires { (at < 10000000) × (n < 32768) }
    ensures { result ≡ sized 32 (fields_at file.now at n) }
{
    let mut a = [0u16; 32];
    fill(&mut a, file, at, n);
    a
}

// n fields from an offset on: supplies, and a row of a grid.
pub fn array24(file: &[u8], at: usize, n: usize) -> [u16; 24]
    requires { (at < 10000000) × (n < 32768) }
    ensures { result ≡ sized 24 (fields_at file.now at n) }
{
    let mut a = [0u16; 24];
    fill(&mut a, file, at, n);
    a
}

// A grid of zeros.
pub fn no_grid() -> Sheet
    ensures { grid_of result ≡ held [] }
{
    let row = Row { cells: [0u16; 24] };
    Sheet { rows: [row; 32] }
}

// The grid of n rows of m fields from an offset on: caps, or a sheet.
pub fn grid(file: &[u8], at: usize, n: usize, m: usize) -> Sheet
    requires { (at < 65536) × (m < 32768) }
    ensures { grid_of result ≡ held (grid_at file.now at n m) }
{
    let rows = least(n, 32);
    let mut sheet = no_grid();
    let mut i = 0;
    while i < rows {
        let row = Row {
            cells: array24(file, at + 2 * (i * m), m),
        };
        sheet.rows[i] = row;
        i += 1;
    }
    sheet
}
