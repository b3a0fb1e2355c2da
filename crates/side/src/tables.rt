// The book as a small header by value and its two sides in place: the form in which commands are worked. The places of a side are loaded
// once, and saved once.
ghost use Rattle.std.specs.Prelude.{◌≡◌, ◌≤◌, ◌<◌, length, take};
ghost use Rattle.rules.specs.Book.{places_a_side, places_of, orders_in};
ghost use Rattle.side.specs.Tables.{numbered_at, Numbered};
ghost use Rattle.side.specs.Sides.{places_on};

use crate::rows;
use crate::rows::{INDEX, Index, PLACES};
use crate::table::Table;
use rules::{Held, Resting};
use std::marker::Model;

// A side by value: its places, of which the first `used` hold resting orders in rank order; the others are zero: 01's record, in fixed
// memory.
#[derive(Clone, Copy, PartialEq, Eq)]
pub struct Side {
    pub used: usize,
    pub places: [Resting; PLACES],
}

pub const NO_ORDERS: Side = Side {
    used: 0,
    places: [rows::UNUSED; PLACES],
};

impl Side {
    // The places that are used.
    pub fn orders(&self) -> &[Resting]
        requires { self.now.used ≤ places_a_side }
        ensures value { result.now ≡ orders_in (places_on self.now) }
        ensures all { length self.now.places ≡ places_a_side }
    {
        &self.places[..self.used]
    }
}

// A sound book in place.
#[derive(Clone, Drop)]
pub struct SoundBook {
    pub held: Held,
    pub buys: Table,
    pub sells: Table,
}

impl Model for SoundBook {
    ghost use Rattle.std.specs.Prelude.{◌≡◌, true};
    ghost use Rattle.rules.specs.Book.{Book, sound};

    ghost Value = { Book };

    ghost view = { λ a. record { held = a.held; buys = a.buys; sells = a.sells } };

    ghost invariant = { λ a. sound (record { held = a.held; buys = a.buys; sells = a.sells }) ≡ true };
}

// The place at which a byte of a numbered index finds its row: the first `n` rows hold orders, the best in the first row.
fn numbered(n: usize, i: usize) -> usize
    requires { (n ≤ places_a_side) × (i < places_a_side) }
    ensures { (result ≡ numbered_at n i) × (result < places_a_side) }
{
    if i < n { n - 1 - i } else { i }
}

// An index of a side whose orders stand in the first `n` rows, in rank order. Of an index, as what it promises is of its bytes, which no
// clause on a `Table` sees. The cast loses nothing of a row, of which there are 256.
fn number(x: &mut Index, n: usize)
    requires { n ≤ places_a_side }
    ensures { Numbered n x.new }
{
    for i in 0..PLACES {
        let slot = numbered(n, i);
        x[i] = slot as u8;
    }
}

// The index of a side with no order: each place names its own row.
pub(crate) fn own_rows() -> Index
    ensures { Numbered 0 result }
{
    let mut x: Index = [0; INDEX];
    number(&mut x, 0);
    x
}

impl Table {
    // The orders that stand in the first `used` places, in their order.
    pub fn load(&mut self, places: &[Resting; PLACES], used: usize)
        requires { used ≤ places_a_side }
        ensures { self.new ≡ take used places.now }
    {
        for i in 0..used {
            let o = places[i];
            self.rows[i] = rows::row_of(o);
        }
        number(&mut self.index, used);
        self.held = used;
    }

    // The orders of the side as its places.
    pub fn save(&self) -> [Resting; PLACES]
        ensures { result ≡ (places_of self.now).places }
    {
        let mut places = [rows::UNUSED; PLACES];
        for i in 0..self.len() {
            let o = self.at(i);
            places[i] = o;
        }
        places
    }
}
