// The contents of the file of a day in memory: the number of entries, and an entry for each part that is there.
ghost use Rattle.std.specs.Prelude.{◌≡◌, ◌+◌, ◌*◌, ◌<◌, ◌≤◌, length};
ghost use Rattle.dayfile.specs.Layout.{contents_end};
ghost use Rattle.dayfile.specs.Table.{known};
ghost use Rattle.store.specs.Stores.{Room, Put, size, entry, entries, sizes, entries_at, head, slots_of};

use super::numbers::{put, size_if};
use dayfile::{Book, KNOWN};

// A part that a file can have: its kind, whether it is there, and how many fields its body has.
#[derive(Clone, Copy)]
pub struct Slot {
    pub kind: u8,
    pub there: bool,
    pub fields: usize,
}

// How many cells a grid of n seats and m windows has.
fn cells(n: usize, m: usize) -> usize
    requires { (n ≤ 32) × (m ≤ 24) }
    ensures { result ≡ n * m }
{
    n * m
}

// The slots of a book with or without a sheet, in the order of their kinds.
pub fn slots_of(book: Book, has_sheet: bool) -> [Slot; KNOWN]
    requires { (book.seats ≤ 32) × (book.windows ≤ 24) }
    ensures { result ≡ slots_of book has_sheet }
{
    let grid = cells(book.seats, book.windows);
    [
        Slot {
            kind: 1,
            there: true,
            fields: book.seats,
        },
        Slot {
            kind: 2,
            there: true,
            fields: book.windows,
        },
        Slot {
            kind: 3,
            there: true,
            fields: grid,
        },
        Slot {
            kind: 4,
            there: has_sheet,
            fields: grid,
        },
        Slot {
            kind: 5,
            there: book.has_first,
            fields: 1,
        },
        Slot {
            kind: 6,
            there: book.has_balances,
            fields: book.seats,
        },
        Slot {
            kind: 7,
            there: book.has_weights,
            fields: 8,
        },
    ]
}

// The number of entries.
pub fn count_entries(slots: [Slot; KNOWN]) -> usize
    requires { length slots ≡ known }
    ensures { (result ≡ entries slots) × (result ≤ known) }
{
    let mut n = 0;
    let mut i = 0;
    while i < KNOWN {
        let slot = slots[i];
        n += size_if(slot.there, 1);
        i += 1;
    }
    n
}

// Where the first body starts.
pub fn first_body(book: Book, has_sheet: bool) -> usize
    requires { (book.seats ≤ 32) × (book.windows ≤ 24) }
    ensures { (result ≡ contents_end (entries (slots_of book has_sheet))) × (result ≤ contents_end known) }
{
    2 + 6 * count_entries(slots_of(book, has_sheet))
}

// How many fields all bodies have.
pub fn count_fields(slots: [Slot; KNOWN]) -> usize
    requires { (length slots ≡ known) × (sizes slots < 30000) }
    ensures { result ≡ sizes slots }
{
    let mut n = 0;
    let mut i = 0;
    while i < KNOWN {
        let slot = slots[i];
        n += size_if(slot.there, slot.fields);
        i += 1;
    }
    n
}

// The entry of a part whose body starts at `start`; nothing where it is missing.
fn put_entry(buf: &mut [u8], at: usize, slot: Slot, start: usize) -> usize
    requires { Room buf.old at (entry slot start) × (start + 2 * size slot < 65536) }
    ensures { Put buf.old at (entry slot start) result buf.new }
{
    if slot.there {
        let p = put(buf, at, slot.kind as usize);
        let p = put(buf, p, start);
        return put(buf, p, 2 * slot.fields);
    }
    at
}

// The entries, the first body at `start`.
fn put_entries(buf: &mut [u8], at: usize, slots: [Slot; KNOWN], start: usize) -> usize
    requires { (length slots ≡ known) × Room buf.old at (entries_at start slots) × (start + 2 * sizes slots < 65536) }
    ensures { Put buf.old at (entries_at start slots) result buf.new }
{
    let mut p = at;
    let mut body = start;
    let mut i = 0;
    while i < KNOWN {
        let slot = slots[i];
        p = put_entry(buf, p, slot, body);
        body += 2 * size_if(slot.there, slot.fields);
        i += 1;
    }
    p
}

// The number of entries and the entries.
pub fn put_contents(buf: &mut [u8], slots: [Slot; KNOWN]) -> usize
    requires { (length slots ≡ known) × Room buf.old 0 (head slots) × (sizes slots < 30000) }
    ensures { Put buf.old 0 (head slots) result buf.new }
{
    let n = count_entries(slots);
    let p = put(buf, 0, n);
    put_entries(buf, p, slots, 2 + 6 * n)
}
