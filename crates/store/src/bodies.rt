// The bodies of the file of a day in memory that are no grids. A grid is stored by `put_file` itself, by `put_rows`: it is 1.5 KB that
// each further call would copy.
ghost use Rattle.store.specs.Stores.{Room, Put, list_fields, option_fields};

use super::numbers::{put_all, size_if};
use dayfile::Book;

// The classes and the supplies.
pub fn put_lists(buf: &mut [u8], at: usize, book: Book) -> usize
    requires { Room buf.old at (list_fields book) }
    ensures { Put buf.old at (list_fields book) result buf.new }
{
    let classes = book.classes;
    let supplies = book.supplies;
    let p = put_all(buf, at, &classes, book.seats);
    put_all(buf, p, &supplies, book.windows)
}

// The first seat, the balances and the weights; what is missing has no fields.
pub fn put_options(buf: &mut [u8], at: usize, book: Book) -> usize
    requires { Room buf.old at (option_fields book) }
    ensures { Put buf.old at (option_fields book) result buf.new }
{
    let first = [book.first];
    let balances = book.balances;
    let weights = book.weights;
    let p = put_all(buf, at, &first, size_if(book.has_first, 1));
    let p = put_all(buf, p, &balances, size_if(book.has_balances, book.seats));
    put_all(buf, p, &weights, size_if(book.has_weights, 8))
}
