// One side of the book in place. To a caller it is the list of its resting orders, in rank order; nothing above this crate sees a row.
ghost use Rattle.std.specs.Prelude.{◌≡◌, ◌≤◌, ◌<◌, [], length, get_or, leb, slice_get};
ghost use Rattle.rules.specs.Book.{places_a_side, unused};
ghost use Rattle.side.specs.Table.{level_of};

use crate::rows;
use crate::rows::{Index, PLACES, Rows};
use rules::Resting;
use std::marker::Model;

// The rows, the index that ranks those in use, and how many orders they hold.
#[derive(Clone, Drop)]
pub struct Table {
    pub(crate) index: Index,
    pub(crate) rows: Rows,
    pub(crate) held: usize,
}

impl Model for Table {
    ghost use Rattle.std.specs.Prelude.{List};
    ghost use Rattle.rules.specs.declared.Resting.{Resting};

    ghost Value = { List Resting };

    ghost use Rattle.side.specs.Table.{side, Holds};

    ghost view = { λ a. side a.held a.index a.rows };

    ghost invariant = { λ a. Holds a.held a.index a.rows };
}

impl Table {
    // A side with no order.
    pub fn empty() -> Table
        ensures { result ≡ [] }
    {
        Table {
            index: crate::tables::own_rows(),
            rows: [rows::FREE; PLACES],
            held: 0,
        }
    }

    // No row is in use: whatever the rows hold, they may stay.
    pub fn clear(&mut self)
        ensures { self.new ≡ [] }
    {
        self.held = 0;
    }

    #[tactic(auto, using(crate::proofs::rows::LawsShown::length_is))]
    pub fn len(&self) -> usize
        ensures value { result ≡ length self.now }
        ensures fits { length self.now ≤ places_a_side }
    {
        self.held
    }

    #[tactic(auto, using(crate::proofs::rows::LawsShown::length_is))]
    pub fn is_full(&self) -> bool
        ensures { result ≡ leb places_a_side (length self.now) }
    {
        PLACES <= self.held
    }

    // The order at a rank of the side.
    #[tactic(auto, using(crate::proofs::rows::LawsShown::length_is))]
    pub fn at(&self, rank: usize) -> Resting
        requires { rank < length self.now }
        ensures { result ≡ get_or self.now rank unused }
    {
        self.rows[rows::slot_at(&self.index, self.held, rank)].order
    }

    // The order at a rank, if the side has so many.
    #[tactic(auto, using(crate::proofs::rows::LawsShown::length_is))]
    pub fn get(&self, rank: usize) -> Option<Resting>
        ensures { result ≡ slice_get self.now rank }
    {
        if rank < self.held {
            Some(self.at(rank))
        } else {
            None
        }
    }

    // The level of the order at a rank.
    #[tactic(auto, using(crate::proofs::rows::LawsShown::length_is))]
    pub(crate) fn level_at(&self, rank: usize, buying: bool) -> u32
        requires { rank < length self.now }
        ensures { result ≡ level_of buying (get_or self.now rank unused) }
    {
        let row = self.rows[rows::slot_at(&self.index, self.held, rank)];
        if buying {
            row.buy_level
        } else {
            row.sell_level
        }
    }
}
