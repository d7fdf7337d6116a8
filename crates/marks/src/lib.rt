// The mark of a lawful sheet in memory, and the bytes of the exchange path that goes with it.
#![tactic(auto)]

ghost use Rattle.std.specs.Prelude.{◌≤◌, length};
ghost use Rattle.fairness.specs.Instance.{Feasible};
ghost use Rattle.model.specs.Book as model;
ghost use Rattle.model.specs.Marks.{mark_of};
ghost use Rattle.dayfile.specs.Table.{moves_room};
ghost use Rattle.dayfile.specs.Memory.{book_in, cells_in};
ghost use Rattle.instance.specs.Terms.{instance_in, Told, Shows, Small};
ghost use Rattle.marks.specs.Steps.{fair_mark, MarkedAs, Markable};

use answers::Marking;
use dayfile::Book;
use exchange::find_path;
use instance::Terms;
use moves::write_moves;
use receiver::Kind;
use sheet::Grid;
use waste::{Waste, wasted};

pub mod moves;

// Marks 2 to 4, of a sheet that is not wasteful.
fn mark_full(cells: &Grid, caps: &Grid, t: Terms, moves: &mut [u8]) -> Marking
    requires small { Small t caps.now × Feasible (instance_in t caps.now) (model.cell cells.now) }
    requires moves_room_in_bounds { moves_room ≤ length moves.old }
    ensures { (b : model.Book) (s : model.Grid) → Told (model.instance_of b) t caps.now →
        Shows t (model.cell s) cells.now → MarkedAs b s (fair_mark b s) moves.old moves.new result }
{
    let Some(found) = find_path(cells, caps, t) else {
        return Marking::Settled;
    };
    write_moves(moves, &found.path);
    let count = found.path.count;
    match found.kind {
        Kind::Improving => Marking::Improvable { moves: count },
        Kind::WronglyTied => Marking::Tied { moves: count },
    }
}

// The mark of a lawful sheet in memory.
pub fn mark_sheet(book: Book, caps: Grid, cells: Grid, moves: &mut [u8]) -> Marking
    requires markable { Markable book caps cells }
    requires moves_room_in_bounds { moves_room ≤ length moves.old }
    ensures { MarkedAs (book_in book caps) (cells_in book cells) (mark_of (book_in book caps) (cells_in book cells))
        moves.old moves.new result }
{
    if let Waste::At { window, seat } = wasted(book, &caps, &cells) {
        return Marking::Wasteful {
            window: window + 1,
            seat: seat + 1,
        };
    }
    mark_full(&cells, &caps, instance::terms_of(book), moves)
}
