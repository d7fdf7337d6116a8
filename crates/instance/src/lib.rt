// The instance of a book in memory: the numbers that the search for exchange paths and the planner look at.
#![tactic(auto)]

ghost use Rattle.std.specs.Prelude.{◌≡◌, ◌-◌, ◌≤◌, ◌<◌, get_or};
ghost use Rattle.fairness.specs.Classes.{class_weights};
ghost use Rattle.model.specs.Lowest.{when, value_or};
ghost use Rattle.model.specs.Book.{Grid, place_from, instance_of};
ghost use Rattle.dayfile.specs.Bounds.{Fit};
ghost use Rattle.dayfile.specs.Memory.{book_in};
ghost use Rattle.instance.specs.Terms.{balances_in_force, weights_in_force, Told, Ranged};

use dayfile::Book;

// An instance by value, without its caps, which stand beside it as an array of arrays. The first seats and windows are used.
#[derive(Clone, Copy)]
pub struct Terms {
    pub seats: usize,
    pub windows: usize,
    // What each window has.
    pub supplies: [u16; 24],
    // What each seat's level divides by.
    pub weights: [u32; 32],
    // What each seat's height starts from.
    pub bases: [u32; 32],
    // Each seat's place in the order of the seat rule.
    pub positions: [u32; 32],
}

// The seat that comes first: without a name it is seat 1.
fn first_seat(book: Book) -> usize
    ensures { result ≡ value_or (when book.has_first book.first) 1 }
{
    if book.has_first {
        book.first as usize
    } else {
        1
    }
}

// The place of a seat among n in the order that starts at `first`.
fn place(first: usize, n: usize, seat: usize) -> u32
    requires { (n ≤ 32) × (seat < 32) }
    ensures { result ≡ place_from first n seat }
{
    if seat + 1 < first {
        (n + seat) as u32
    } else {
        seat as u32
    }
}

// The balances in force: zeros where there are none.
pub fn balances(book: Book) -> [u16; 32]
    ensures { result ≡ balances_in_force book }
{
    if book.has_balances {
        return book.balances;
    }
    [0u16; 32]
}

// Paper 01's weights of classes 1 to 8.
fn built_in() -> [u16; 8]
    ensures { result ≡ class_weights }
{
    let mut weights = [0u16; 8];
    for i in 0..8usize {
        weights[i] = fairness::weight(i as u16 + 1) as u16;
    }
    weights
}

// The weights in force of classes 1 to 8: paper 01's where there are none.
pub fn weights(book: Book) -> [u16; 8]
    ensures { result ≡ weights_in_force book }
{
    if book.has_weights {
        return book.weights;
    }
    built_in()
}

// The weight of a class in a table.
fn weight_in(weights: [u16; 8], class: u16) -> u32
    requires { (1 ≤ class) × (class ≤ 8) }
    ensures { result ≡ get_or weights (class - 1) 0 }
{
    weights[class as usize - 1] as u32
}

// A balance as wide as heights are.
fn wide(x: u16) -> u32
    ensures { result ≡ x }
{
    x as u32
}

// Weights go by class and by the weights in force, heights start from the balances, and the seat rule goes by the order from the first seat
// on.
pub fn terms_of(book: Book) -> Terms
    requires { (caps : Grid) × Fit (book_in book caps) }
    ensures ranged { Ranged result }
    ensures told { (caps : Grid) → Told (instance_of (book_in book caps)) result caps }
{
    let seats = book.seats;
    let classes = book.classes;
    let supplies = book.supplies;
    let table = weights(book);
    let balances = balances(book);
    let first = first_seat(book);
    let mut weights = [0u32; 32];
    let mut bases = [0u32; 32];
    let mut positions = [0u32; 32];
    for i in 0..seats {
        weights[i] = weight_in(table, classes[i]);
        bases[i] = wide(balances[i]);
        positions[i] = place(first, seats, i);
    }
    Terms {
        seats,
        windows: book.windows,
        supplies,
        weights,
        bases,
        positions,
    }
}
