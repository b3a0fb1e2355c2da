// The parts of a side's orders, which are 02's holdings without empty reserves, in the order in which a walk reaches them (W4): each shown
// part at its rank, each reserve behind every other order at its price. A cursor goes from one part to the next and passes the orders
// once; only where a price has a reserve does it pass that price's orders again, and look behind them once more for each reserve.
ghost use Rattle.std.specs.Prelude.{◌≡◌, ◌≤◌, ◌<◌, length};
ghost use Rattle.rules.specs.Book.{places_a_side};
ghost use Rattle.orders.specs.Cursor.{IsAt, Skips, LevelEnds, Gives, first_waiting, Follows};

use kinds::{HalfCents, Shares};
use side::table::Table;

// What one order can give at one point of a walk: its shown part, or its reserve. The order stands at rank `place`, and has a minimum or 0.
#[derive(Clone, Copy)]
pub struct Part {
    pub place: usize,
    pub price: HalfCents,
    pub shares: Shares,
    pub minimum: Shares,
}

// The orders before `at` have been reached. `waits` is the first of them whose reserve has not, `at` where there is none.
// `level` is the price of the order before `at`.
#[derive(Clone, Copy)]
pub struct Cursor {
    pub at: usize,
    pub waits: usize,
    pub level: HalfCents,
}

// The first order from `from` on, before `to`, that has a reserve; `to` where none has.
fn skip(t: &Table, from: usize, to: usize) -> usize
    requires after { from ≤ to }
    requires within { to ≤ length t.now }
    ensures { Skips t.now from to result }
{
    for rank in from..to {
        let o = t.at(rank);
        if o.reserve.0 != 0 {
            return rank;
        }
    }
    to
}

// The first of the reserves that wait, where no other order at their price is ahead.
fn next_reserve(t: &Table, c: Cursor) -> (Part, Cursor)
    requires stands { IsAt t.now c }
    requires waits { c.waits < c.at }
    requires ends { LevelEnds t.now c }
    ensures { Gives t.now c result.0 result.1 }
{
    let o = t.at(c.waits);
    let part = Part {
        place: c.waits,
        price: o.price,
        shares: o.reserve,
        minimum: o.minimum,
    };
    let next = Cursor {
        waits: skip(t, c.waits + 1, c.at),
        ..c
    };
    (part, next)
}

// The first order whose reserve waits, once the one at `at` has been reached.
fn first_waiting(at: usize, waits: usize, reserve: Shares) -> usize
    requires { at < places_a_side }
    ensures { result ≡ first_waiting at waits reserve.0 }
{
    if (waits == at) & (reserve.0 == 0) {
        return at + 1;
    }
    waits
}

// The part ahead of a cursor, if there is one, and the cursor behind it.
pub(crate) fn next(t: &Table, c: Cursor) -> Option<(Part, Cursor)>
    requires { IsAt t.now c }
    ensures value { Follows t.now c result }
    ensures fits { length t.now ≤ places_a_side }
{
    if t.len() <= c.at {
        if c.waits < c.at {
            return Some(next_reserve(t, c));
        }
        return None;
    }
    let o = t.at(c.at);
    let price_ends = (c.waits < c.at) & (o.price != c.level);
    if price_ends {
        return Some(next_reserve(t, c));
    }
    let part = Part {
        place: c.at,
        price: o.price,
        shares: o.shares,
        minimum: o.minimum,
    };
    let next = Cursor {
        at: c.at + 1,
        waits: first_waiting(c.at, c.waits, o.reserve),
        level: o.price,
    };
    Some((part, next))
}
