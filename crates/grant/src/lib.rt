// Wanted totals of a book in memory: a sheet that gives them, or a group of seats that wants more than it can get. A seat that alone wants
// too much is told alone. Then the seats are served in turn, and mostly each gets what it wants. Otherwise the book is settled with every
// seat as far below one height as it is below what it wants: a seat that is left short then reaches nobody who has too much, so the seats
// that it reaches are a group.
#![tactic(auto)]

ghost use Rattle.std.specs.Prelude.{ℕ, ◌≤◌, ◌<◌, get_or};
ghost use Rattle.fairness.specs.Instance.{Instance, Feasible};
ghost use Rattle.fairness.specs.Wanted.{Grants};
ghost use Rattle.model.specs.Book.{cell};
ghost use Rattle.instance.specs.Terms.{instance_in, Told, Small};
ghost use Rattle.wants.specs.Wanted.{Overasks};
ghost use Rattle.wants.specs.Steps.{most_total};
ghost use Rattle.grant.specs.Steps.{IfGroup, NoneAlone, NoneShort, Reaches, Enough};

use dayfile::Found;
use engine::settled_from;
use exchange::graph_of;
use instance::Terms;
use masks::insert;
use sheet::Grid;
use wants::{aim, alone_totals, first_short, serve, totals, trim};

// The first seat that alone wants more than it can get, as a group; 0 where there is none.
fn alone_group(t: Terms, caps: &Grid, wants: [u32; 32]) -> u32
    requires { (t.seats ≤ 32) × (t.windows ≤ 24) }
    ensures { (I : Instance) → Told I t caps.now →
        IfGroup result (Overasks I (λ i. get_or wants i 0) result) (NoneAlone I (λ i. get_or wants i 0)) }
{
    if let Found::At(seat) = first_short(alone_totals(t, caps), wants, t.seats) {
        return insert(0, seat);
    }
    0
}

// The seats that the first short one reaches; 0 where none is short.
fn short_group(sheet: &Grid, caps: &Grid, t: Terms, wants: [u32; 32]) -> u32
    requires { (t.seats ≤ 32) × (t.windows ≤ 24) }
    ensures { (I : Instance) → Told I t caps.now →
        IfGroup result (Reaches I (cell sheet.now) (λ i. get_or wants i 0) result)
        (NoneShort I (cell sheet.now) (λ i. get_or wants i 0)) }
{
    if let Found::At(seat) = first_short(totals(sheet, t.seats, t.windows), wants, t.seats) {
        return graph_of(sheet, caps, t).reached(seat);
    }
    0
}

// A lawful sheet on which no seat is short, or a group that wants more than it can get. A sheet that leaves a seat short is settled.
fn settle_short(sheet: &mut Grid, caps: &Grid, t: Terms, wants: [u32; 32]) -> u32
    requires small { Small t caps.now }
    requires feasible { Feasible (instance_in t caps.now) (cell sheet.old) }
    requires by_index { (i : ℕ) → i < t.seats → get_or wants i 0 ≤ most_total }
    ensures { (I : Instance) → Told I t caps.now →
        IfGroup result (Overasks I (λ i. get_or wants i 0) result) (Enough I (cell sheet.new) (λ i. get_or wants i 0)) }
{
    if let Found::Nothing = first_short(totals(sheet, t.seats, t.windows), wants, t.seats) {
        return 0;
    }
    *sheet = settled_from(*sheet, aim(t, wants), caps);
    short_group(sheet, caps, t, wants)
}

// A group that wants more than it can get; or 0, and then the sheet has just the wanted totals.
pub fn grant(t: Terms, caps: &Grid, wants: [u32; 32], sheet: &mut Grid) -> u32
    requires { Small t caps.now }
    ensures { (I : Instance) → Told I t caps.now →
        IfGroup result (Overasks I (λ i. get_or wants i 0) result) (Grants I (λ i. get_or wants i 0) (cell sheet.new)) }
{
    let alone = alone_group(t, caps, wants);
    if alone != 0 {
        return alone;
    }
    *sheet = serve(t, caps, wants);
    let group = settle_short(sheet, caps, t, wants);
    if group != 0 {
        return group;
    }
    *sheet = trim(sheet, wants, t.seats, t.windows);
    0
}
