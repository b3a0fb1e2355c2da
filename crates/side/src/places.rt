// An order takes its place on a side of the book, by rank (01, The book).
ghost use Rattle.std.specs.Prelude.{true, ◌≡◌, ◌<◌, length};
ghost use Rattle.rules.specs.Book.{places_a_side, in_rank_order};
ghost use Rattle.rules.specs.Settling.{insert};
ghost use Rattle.side.specs.Looking.{Newest};

use crate::table::Table;
use rules::Resting;

impl Table {
    // An order rests on its side, at its rank; it is the newest there.
    pub fn rest(&mut self, buying: bool, o: Resting)
        requires room { length self.old < places_a_side }
        requires ranked { in_rank_order buying self.old ≡ true }
        requires newest { Newest o self.old }
        ensures { self.new ≡ insert buying o self.old }
    {
        let at = self.place(buying, o);
        self.insert(at, o);
    }
}
