// What a day file says in its fields, one by one and as arrays, whether it is turned away or not, and where its bodies lie. A byte past
// the end counts as 0.
#![tactic(auto)]

ghost use Rattle.std.specs.Prelude.{◌≡◌, ◌<◌, get_or};
ghost use Rattle.dayfile.specs.Layout.{field, count, kind, start, size, ends, entry_of, seats_in, windows_in};
ghost use Rattle.dayfile.specs.Memory.{found, Under};

use dayfile::Found;

pub mod arrays;

fn wide(x: u8) -> usize
    ensures { (result ≡ x) × (result < 256) }
{
    x as usize
}

// A byte of the file.
fn byte(file: &[u8], at: usize) -> usize
    ensures { (result ≡ get_or file.now at 0) × (result < 256) }
{
    if at < file.len() { wide(file[at]) } else { 0 }
}

// The field at an offset: two bytes, low byte first.
pub fn field(file: &[u8], at: usize) -> usize
    requires { at < 1000000000000 }
    ensures { (result ≡ field file.now at) × (result < 65536) }
{
    byte(file, at) + 256 * byte(file, at + 1)
}

// The number of entries.
pub fn count(file: &[u8]) -> usize
    ensures { (result ≡ count file.now) × (result < 65536) }
{
    field(file, 0)
}

// The kind of entry e, counted from 0.
pub fn kind(file: &[u8], e: usize) -> usize
    requires { e < 65536 }
    ensures { (result ≡ kind file.now e) × (result < 65536) }
{
    field(file, 2 + 6 * e)
}

// Where the body of entry e starts.
pub fn start(file: &[u8], e: usize) -> usize
    requires { e < 65536 }
    ensures { (result ≡ start file.now e) × (result < 65536) }
{
    field(file, 4 + 6 * e)
}

// The length in bytes of the body of entry e.
pub fn size(file: &[u8], e: usize) -> usize
    requires { e < 65536 }
    ensures { (result ≡ size file.now e) × (result < 65536) }
{
    field(file, 6 + 6 * e)
}

// Where the part before the body of entry e ends.
pub fn ends(file: &[u8], e: usize) -> usize
    requires { e < 65536 }
    ensures { result ≡ ends file.now e }
{
    if e == 0 {
        2 + 6 * count(file)
    } else {
        start(file, e - 1) + size(file, e - 1)
    }
}

// The number of seats.
pub fn seats(file: &[u8]) -> usize
    ensures { (result ≡ seats_in file.now) × (result < 32768) }
{
    size(file, 0) / 2
}

// The number of windows.
pub fn windows(file: &[u8]) -> usize
    ensures { (result ≡ windows_in file.now) × (result < 32768) }
{
    size(file, 1) / 2
}

// The entry of a kind, if there is one.
pub fn entry_of(file: &[u8], k: usize) -> Found
    ensures { (found result ≡ entry_of file.now k) × Under 65536 (found result) }
{
    let n = count(file);
    let mut e = 0;
    while e < n {
        if kind(file, e) == k {
            return Found::At(e);
        }
        e += 1;
    }
    Found::Nothing
}
