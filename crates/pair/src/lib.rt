// Two hand-ins in memory: whether they are of one book, and whether the second sheet has the higher list.
#![tactic(auto)]

ghost use Rattle.std.specs.Prelude.{◌≡◌, true, ◌↔◌, ◌≤◌, length};
ghost use Rattle.fairness.specs.Leximin.{NoHigher, Higher};
ghost use Rattle.model.specs.Book.{Grid};
ghost use Rattle.model.specs.Fair.{profile_of};
ghost use Rattle.sheet.specs.Sheets.{credit, grid_of};
ghost use Rattle.dayfile.specs.Bounds.{Fit};
ghost use Rattle.dayfile.specs.Table.{same_book};
ghost use Rattle.dayfile.specs.Memory.{book_in, cells_in};
ghost use Rattle.pair.specs.Same.{SameUpTo, SameCells, SameLists};

use dayfile::Book;
use instance::{balances, terms_of, weights};
use leximin::is_higher;
use profile::profile;
use sheet::Sheet;

// Whether the first n numbers of two arrays are the same.
fn same(a: &[u16], b: &[u16], n: usize) -> bool
    requires { (n ≤ length a.now) × (n ≤ length b.now) }
    ensures { (result ≡ true) ↔ SameUpTo n a.now b.now }
{
    for i in 0..n {
        if a[i] != b[i] {
            return false;
        }
    }
    true
}

// The same of two rows.
fn same_row(a: [u16; 24], b: [u16; 24], n: usize) -> bool
    requires { n ≤ 24 }
    ensures { (result ≡ true) ↔ SameUpTo n a b }
{
    same(&a, &b, n)
}

// Whether two grids have the same cells, in their first seats and windows.
fn same_cells(a: Sheet, b: Sheet, seats: usize, windows: usize) -> bool
    requires { (seats ≤ 32) × (windows ≤ 24) }
    ensures { (result ≡ true) ↔ SameCells seats windows (credit a) (credit b) }
{
    for i in 0..seats {
        let row = a.rows[i];
        let cells = row.cells;
        let other = b.rows[i];
        let others = other.cells;
        if !same_row(cells, others, windows) {
            return false;
        }
    }
    true
}

// Whether two books have the same classes, supplies, balances and weights.
fn same_lists(a: Book, b: Book) -> bool
    requires { (a.seats ≤ 32) × (a.windows ≤ 24) }
    ensures { (result ≡ true) ↔ SameLists a b }
{
    let seats = a.seats;
    let windows = a.windows;
    if seats != b.seats {
        return false;
    }
    if windows != b.windows {
        return false;
    }
    let a_classes = a.classes;
    let b_classes = b.classes;
    if !same(&a_classes, &b_classes, seats) {
        return false;
    }
    let a_supplies = a.supplies;
    let b_supplies = b.supplies;
    if !same_row(a_supplies, b_supplies, windows) {
        return false;
    }
    let a_balances = balances(a);
    let b_balances = balances(b);
    if !same(&a_balances, &b_balances, seats) {
        return false;
    }
    let a_weights = weights(a);
    let b_weights = weights(b);
    same(&a_weights, &b_weights, 8)
}

// Whether two books have the same numbers in force: classes, supplies, caps, balances, weights.
pub fn same_book(a: Book, a_caps: Sheet, b: Book, b_caps: Sheet) -> bool
    requires { (a.seats ≤ 32) × (a.windows ≤ 24) }
    ensures { result ≡ same_book (book_in a (grid_of a_caps)) (book_in b (grid_of b_caps)) }
{
    if !same_lists(a, b) {
        return false;
    }
    same_cells(a_caps, b_caps, a.seats, a.windows)
}

// Whether the second of two sheets of a book has the higher list.
pub fn second_is_higher(book: Book, first: Sheet, second: Sheet) -> bool
    requires { (caps : Grid) × Fit (book_in book caps) }
    ensures { (caps : Grid) → (result ≡ true)
        ↔ Higher NoHigher (profile_of (book_in book caps) (cells_in book (grid_of first)))
        (profile_of (book_in book caps) (cells_in book (grid_of second))) }
{
    let terms = terms_of(book);
    let one = profile(terms, first);
    let two = profile(terms, second);
    is_higher(one, two, terms.seats)
}
