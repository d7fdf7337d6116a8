// Numbers stored into a buffer as fields. Each function that stores gives the offset behind what it stored.
ghost use Rattle.std.specs.Prelude.{◌≡◌, [], ◌∷◌, ◌<◌, ◌≤◌, get_or};
ghost use Rattle.dayfile.specs.File.{flat};
ghost use Rattle.dayfile.specs.Memory.{sized, sized_grid};
ghost use Rattle.store.specs.Stores.{Room, Put, size_if};

use sheet::Grid;

// A field at an offset.
pub fn put(buf: &mut [u8], at: usize, x: usize) -> usize
    requires { Room buf.old at (x ∷ []) × (x < 65536) }
    ensures { Put buf.old at (x ∷ []) result buf.new }
{
    buf[at] = (x % 256) as u8;
    buf[at + 1] = (x / 256) as u8;
    at + 2
}

fn wide(x: u16) -> usize
    ensures { (result ≡ x) × (result < 65536) }
{
    x as usize
}

// A number of a list, 0 past its end.
pub fn number(src: &[u16], i: usize) -> usize
    ensures { (result ≡ get_or src.now i 0) × (result < 65536) }
{
    if i < src.len() { wide(src[i]) } else { 0 }
}

// How many there are of what may be missing.
pub fn size_if(there: bool, n: usize) -> usize
    ensures { (result ≡ size_if there n) × (result ≤ n) }
{
    if there { n } else { 0 }
}

// The first n numbers of a list.
pub fn put_all(buf: &mut [u8], at: usize, src: &[u16], n: usize) -> usize
    requires { Room buf.old at (sized n src.now) }
    ensures { Put buf.old at (sized n src.now) result buf.new }
{
    let mut p = at;
    let mut i = 0;
    while i < n {
        p = put(buf, p, number(src, i));
        i += 1;
    }
    p
}

// The first n rows of a grid, m cells of each.
pub fn put_rows(buf: &mut [u8], at: usize, grid: &Grid, n: usize, m: usize) -> usize
    requires { (n ≤ 32) × Room buf.old at (flat (sized_grid n m grid.now)) }
    ensures { Put buf.old at (flat (sized_grid n m grid.now)) result buf.new }
{
    let mut p = at;
    let mut i = 0;
    while i < n {
        p = put_all(buf, p, &grid[i], m);
        i += 1;
    }
    p
}
