// Trials: random books and files through all calls. What the library says of small books is held against the crate `oracle`. The numbers
// are drawn from a fixed start.
#![tactic(auto)]

ghost use Rattle.streams.specs.Streams.{AppendsSome};

use say::{COUNTS, say_report};
use std::io::{self, Write};
use tally::Tally;

pub mod calls;
pub mod forecasts;
pub mod full;
pub mod pairs;
pub mod refused;
pub mod sheets;
pub mod tally;
pub mod wanted;

#[derive(Clone, Copy)]
enum Kind {
    Small,
    Damaged,
    Pair,
    Full,
    Wanted,
}

fn trial(kind: Kind, state: &mut u32, tally: Tally) -> Tally {
    match kind {
        Kind::Small => sheets::judge(state, tally),
        Kind::Damaged => refused::judge(state, tally),
        Kind::Pair => pairs::judge(state, tally),
        Kind::Full => full::judge(state, tally),
        Kind::Wanted => wanted::judge(state, tally),
    }
}

// So many trials of a kind, and the report of what was counted.
fn run<W: Write>(to: &mut W, kind: Kind, n: u32, state: &mut u32, text: &[u8]) -> io::Result<()>
    ensures { AppendsSome (W.contents to.old) (W.contents to.new) }
{
    let mut tally = [0u32; COUNTS];
    for _ in 0..n {
        let next = trial(kind, state, tally);
        tally = next;
    }
    say_report(to, text, &tally)
}

fn main(rt: HostRuntime) -> io::Result<()> {
    let mut to = io::writer(&rt);
    let mut state = 1;
    run(
        &mut to,
        Kind::Small,
        40000,
        &mut state,
        b"small books, by number: sheets with this mark, with so many moves, books planned (1: with one settled sheet, 2: with several,
  3: with balances, 4: with balances that change the plan, 5: with own weights, 6: with own weights that change the plan) or refused by
  line 22 (22: all, 7: with several idle seats)\n",
    )?;
    run(
        &mut to,
        Kind::Damaged,
        20000,
        &mut state,
        b"damaged files and books, by line (0: taken): marker's, planner's, writer's\n",
    )?;
    run(
        &mut to,
        Kind::Full,
        300,
        &mut state,
        b"full-size books: planned and marked (0: all, 1: with balances, 2: with own weights), refused by line 22 and marked (22: all)\n",
    )?;
    run(
        &mut to,
        Kind::Pair,
        20000,
        &mut state,
        b"pairs of hand-ins, by line: neither's (1: different files with equal lists, 2: one book, and balances in one file only,
  3: two books by their balances alone, 4: one book, and own weights in one file only, 5: two books by their weights alone,
  6: by weights of classes alone that no seat has, 7: one book with an idle seat), the first's, the second's (0: chosen)\n",
    )?;
    run(
        &mut to,
        Kind::Wanted,
        30000,
        &mut state,
        b"wanted totals, by number: refused by this line, sheets for so many seats that want credits, groups of so many seats (5: where
  no seat alone wants too much, 6: where a want is above 65,535; 7, sheets and groups: of a book with an idle seat)\n",
    )
}
