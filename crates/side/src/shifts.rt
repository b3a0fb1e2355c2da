// Orders moved in and out of one side, in place: the index is turned, and the rows stay where they are.
ghost use Rattle.std.specs.Prelude.{true, ◌≡◌, ◌+◌, ◌≤◌, ◌<◌, min, length, drop, get_or, set};
ghost use Rattle.basics.specs.Lists.{every, insert_at, remove_at};
ghost use Rattle.rules.specs.Book.{places_a_side, unused};
ghost use Rattle.side.specs.Shifts.{keeps, keepers, less_by};

use crate::rows;
use crate::table::Table;
use kinds::Shares;
use rules::Resting;

// ── Orders ──

// A minimum, or what is left of its order where that is less (02, W7): the shown part and the reserve, whose sum may be more than a word
// holds.
fn cut(minimum: u32, shown: u32, reserve: u32) -> u32
    ensures { result ≡ min minimum (shown + reserve) }
{
    shown.saturating_add(reserve).min(minimum)
}

// Whether an order has something left, shown or in reserve.
fn has_shares(o: Resting) -> bool
    ensures { result ≡ keeps o }
{
    !((o.shares.0 == 0) & (o.reserve.0 == 0))
}

impl Table {
    // The side with one more order, at rank `at`: it takes the first free row.
    #[tactic(auto, using(crate::proofs::rows::LawsShown::length_is))]
    pub(crate) fn insert(&mut self, at: usize, o: Resting)
        requires { (at ≤ length self.old) × (length self.old < places_a_side) }
        ensures { self.new ≡ insert_at at o self.old }
    {
        let n = self.held;
        let slot = self.index[n];
        self.index[n - at..n + 1].rotate_right(1);
        let hint = rows::hint_of(o.number);
        self.index[hint] = slot;
        self.rows[usize::from(slot)] = rows::row_of(o);
        self.held = n + 1;
    }

    // The side without the order at rank `at`: its row is free.
    #[tactic(auto, using(crate::proofs::rows::LawsShown::length_is))]
    pub fn remove(&mut self, at: usize)
        requires { at < length self.old }
        ensures value { self.new ≡ remove_at at self.old }
        ensures room { length self.new < places_a_side }
    {
        let last = self.held - 1;
        self.index[last - at..last + 1].rotate_left(1);
        self.held = last;
    }

    // The side with `part` shares fewer in the order at rank `at`: of its shown part first, and then of its reserve.
    #[tactic(auto, using(crate::proofs::rows::LawsShown::length_is))]
    pub fn reduce(&mut self, at: usize, part: Shares)
        requires { at < length self.old }
        ensures { self.new ≡ set self.old at (less_by part.0 (get_or self.old at unused)) }
    {
        let slot = rows::slot_at(&self.index, self.held, at);
        let o = self.rows[slot].order;
        let shown = o.shares.0.saturating_sub(part.0);
        let more = part.0.saturating_sub(o.shares.0);
        let reserve = o.reserve.0.saturating_sub(more);
        let minimum = cut(o.minimum.0, shown, reserve);
        self.rows[slot] = rows::row_of(Resting {
            shares: Shares(shown),
            reserve: Shares(reserve),
            minimum: Shares(minimum),
            ..o
        });
    }

    // Of the first `reached` orders those leave that have nothing left. From the worst of them to the best, each changes places with the
    // first that leaves, so that whoever leaves comes to stand behind; whether one counts is no branch. By hand: the library's
    // `swap` asks which place is the lower.
    #[tactic(auto, using(crate::proofs::rows::LawsShown::length_is))]
    pub fn close_up(&mut self, reached: usize)
        requires within { reached ≤ length self.old }
        requires others { every keeps (drop reached self.old) ≡ true }
        ensures { self.new ≡ keepers self.old }
    {
        let mut to = self.held - reached;
        for i in to..self.held {
            let slot = self.index[i];
            self.index[i] = self.index[to];
            self.index[to] = slot;
            let o = self.rows[usize::from(slot)].order;
            to += usize::from(has_shares(o));
        }
        self.held = to;
    }
}
