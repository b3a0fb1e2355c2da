// What a side of the book stands in: rows, each of which holds a resting order or is free, and an index that names the rows in use in rank
// order, the best order's last. A row stays where it is as long as its order rests.
ghost use Rattle.std.specs.Prelude.{◌≡◌, ◌≤◌, ◌<◌, length, get_or};
ghost use Rattle.kinds.specs.Kinds.{shares};
ghost use Rattle.rules.specs.Book.{places_a_side, is_unused, shares_left};
ghost use Rattle.side.specs.Shifts.{Countable};
ghost use Rattle.side.specs.Table.{level_of, row_of, hint_of, ranked, Names};

use kinds::{HalfCents, Number, Shares};
use rules::{Resting, Stamp};

pub const PLACES: usize = 256;

// How many hints an index has, from an order's number to its row.
pub(crate) const HINTS: usize = 4096;

// How many bytes an index has: one for each place, and the hints.
pub(crate) const INDEX: usize = PLACES + HINTS;

// A loop over an index passes as many parts of so many places as the orders need: the length of a part is known, so the compiler makes
// vectors of it, and a side of few orders is not passed as one of many.
pub(crate) const PART: usize = 64;

// The places of a part, for a loop to read its own from: bytes are compared sixteen at a time, and a counter is not.
pub(crate) const STEPS: [u8; PART] = [
    0, 1, 2, 3, 4, 5, 6, 7, 8, 9, 10, 11, 12, 13, 14, 15, 16, 17, 18, 19, 20, 21, 22, 23, 24, 25,
    26, 27, 28, 29, 30, 31, 32, 33, 34, 35, 36, 37, 38, 39, 40, 41, 42, 43, 44, 45, 46, 47, 48, 49,
    50, 51, 52, 53, 54, 55, 56, 57, 58, 59, 60, 61, 62, 63,
];

// An order, and its level on each side of the market.
#[derive(Clone, Copy)]
pub(crate) struct Row {
    pub(crate) order: Resting,
    pub(crate) buy_level: u32,
    pub(crate) sell_level: u32,
}

pub(crate) type Rows = [Row; PLACES];

pub(crate) type Index = [u8; INDEX];

pub const UNUSED: Resting = Resting {
    number: Number(0),
    price: HalfCents(0),
    shares: Shares(0),
    displayed: false,
    back: false,
    stamp: Stamp {
        command: Number(0),
        place: 0,
    },
    reserve: Shares(0),
    floor: Shares(0),
    minimum: Shares(0),
};

// A row that no order was put in yet.
pub(crate) const FREE: Row = Row {
    order: UNUSED,
    buy_level: 0,
    sell_level: 0,
};

// Whether a record is that of an unused place.
pub fn is_unused(o: Resting) -> bool
    ensures { result ≡ is_unused o }
{
    o == UNUSED
}

// The shares of an order, shown and in reserve (02, W4). That a word holds the sum is a clause and in no type: a record that is lent may hold
// any two numbers.
pub fn shares_left(o: Resting) -> Shares
    requires { Countable o }
    ensures { result ≡ shares (shares_left o) }
{
    Shares(o.shares.0 + o.reserve.0)
}

// ── A row ──

// Price and display in one number, by which a new order's place is found on a side of the market.
pub(crate) fn level_of(o: Resting, buying: bool) -> u32
    ensures { result ≡ level_of buying o }
{
    let twice = o.price.0 % 2147483648 * 2;
    if buying {
        return 4294967295 - (twice + u32::from(o.displayed));
    }
    twice + u32::from(!o.displayed)
}

pub(crate) fn row_of(o: Resting) -> Row
    ensures { result ≡ row_of o }
{
    Row {
        order: o,
        buy_level: level_of(o, true),
        sell_level: level_of(o, false),
    }
}

// ── An index ──

// Where the hint of an order's number stands in an index. A cast: there is no `From` of four bytes for a place.
pub(crate) fn hint_of(number: Number) -> usize
    ensures { result ≡ hint_of number.0 }
{
    PLACES + (number.0 as usize) % HINTS
}

// The row of the order at a rank. Of an index, as what it promises is of its bytes, which no clause on a `Table` sees.
pub(crate) fn slot_at(x: &Index, n: usize, i: usize) -> usize
    requires { Names x.now × (i < n) × (n ≤ places_a_side) }
    ensures { (result ≡ get_or (ranked n x.now) i 0) × (result < places_a_side) }
{
    usize::from(x[n - 1 - i])
}
