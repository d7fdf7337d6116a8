// The numbers of a line. They are kept as fields of a day file are: two bytes each, low byte first.
ghost use Rattle.std.specs.Prelude.{◌<◌};

use sheet::Grid;

// The number at a place, 0 past the last.
pub fn at(numbers: &[u8], place: usize) -> u16 {
    let (fields, _) = numbers.as_chunks::<2>();
    fields
        .get(place)
        .map_or(0, |field| u16::from_le_bytes(*field))
}

// Stores a number at a place, if there is room for it.
fn put(numbers: &mut [u8], place: usize, x: u32) {
    if place < numbers.len() / 2 {
        let field = &mut numbers[2 * place..2 * place + 2];
        field.copy_from_slice(&((x & 0xffff) as u16).to_le_bytes());
    }
}

// A number and one digit more. Numbers have up to five digits.
fn with_digit(x: u32, c: u8) -> u32 {
    if x < 10000 {
        x * 10 + u32::from(c % 16)
    } else {
        x
    }
}

// The numbers of a text: whatever is no digit ends one. A last one that nothing ends does not count.
pub fn read(text: &[u8], numbers: &mut [u8]) {
    let ended = text.iter().rposition(|c| !c.is_ascii_digit()).unwrap_or(0);
    let texts = text[..ended].split(|c| !c.is_ascii_digit());
    for (place, digits) in texts.filter(|digits| !digits.is_empty()).enumerate() {
        let x = digits.iter().fold(0, |x, c| with_digit(x, *c));
        put(numbers, place, x);
    }
}

// So many bytes from a place on: the numbers there as a file. None where there are not so many.
pub fn bytes(numbers: &[u8], place: usize, n: usize) -> &[u8] {
    let rest = numbers.get(place.saturating_mul(2)..).unwrap_or(&[]);
    rest.get(..n).unwrap_or(&[])
}

// A number that places are counted by.
pub fn wide(numbers: &[u8], place: usize) -> usize
    ensures { result < 65536 }
{
    usize::from(at(numbers, place))
}

pub fn product(n: usize, m: usize) -> usize
    requires { (n < 65536) × (m < 65536) }
    ensures { result < 4294967296 }
{
    n * m
}

// Numbers from a place on, as many as there is room for.
pub fn fill(numbers: &[u8], place: usize, out: &mut [u16]) {
    for (i, x) in out.iter_mut().enumerate() {
        *x = at(numbers, place.wrapping_add(i));
    }
}

// Rows of so many windows, from a place on.
pub fn grid(numbers: &[u8], place: usize, windows: usize) -> Grid
    requires { (place < 4500000000) × (windows < 65536) }
{
    let mut grid = [[0u16; 24]; 32];
    for (i, row) in grid.iter_mut().enumerate() {
        fill(numbers, place + product(i, windows), row);
    }
    grid
}
