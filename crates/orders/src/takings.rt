// What a walk takes, in room that is lent: the takings of one walk, in its order.
ghost use Rattle.std.specs.Prelude.{[], ◌∷◌, ◌++◌, ◌≡◌, ◌<◌, length};
ghost use Rattle.orders.specs.Room.{most_takings};

use kinds::{HalfCents, Shares};
use side::rows::PLACES;
use std::marker::Model;

// Room for the takings of one walk: an order has two parts at most.
pub const TAKINGS: usize = 2 * PLACES;

// What a walk took from a part of the order at a rank, and the price at which that order rests.
#[derive(Clone, Copy)]
pub struct Taking {
    pub place: usize,
    pub price: HalfCents,
    pub shares: Shares,
}

// What stands in room that is not used.
const NO_TAKING: Taking = Taking {
    place: 0,
    price: HalfCents(0),
    shares: Shares(0),
};

// To a caller these are the list of the takings. A count beside an array, and no `Vec`: the project has no heap.
#[derive(Clone, Drop)]
pub struct Takings {
    rows: [Taking; TAKINGS],
    count: usize,
}

impl Model for Takings {
    ghost use Rattle.std.specs.Prelude.{List, ◌≤◌, ◌≡◌, length, take};
    ghost use Rattle.orders.specs.declared.takings.Taking.{Taking};

    ghost Value = { List Taking };

    ghost use Rattle.orders.specs.Room.{most_takings};

    ghost view = { λ a. take a.count a.rows };

    ghost invariant = { λ a. (a.count ≤ most_takings) × (length a.rows ≡ most_takings) };
}

impl Takings {
    // No takings.
    pub fn new() -> Takings
        ensures { result ≡ [] }
    {
        Takings {
            rows: [NO_TAKING; TAKINGS],
            count: 0,
        }
    }

    // Whatever the rows hold, they may stay.
    pub(crate) fn clear(&mut self)
        ensures { self.new ≡ [] }
    {
        self.count = 0;
    }

    pub(crate) fn push(&mut self, taking: Taking)
        requires { length self.old < most_takings }
        ensures { self.new ≡ self.old ++ (taking ∷ []) }
    {
        self.rows[self.count] = taking;
        self.count += 1;
    }

    pub(crate) fn as_slice(&self) -> &[Taking]
        ensures { result.now ≡ self.now }
    {
        &self.rows[..self.count]
    }
}
