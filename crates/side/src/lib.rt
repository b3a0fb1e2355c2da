// One side of the book in place. Here what is looked for on it: the order of a number, and the place of a new order by its rank
// (01, The book).

#![tactic(auto)]

pub mod places;
pub mod prices;
pub mod rows;
pub mod shifts;
pub mod table;
pub mod tables;

ghost use Rattle.std.specs.Prelude.{true, ◌≡◌, ◌≤◌, ◌<◌, eqb, ltb, length, get_or, if◌then◌else◌};
ghost use Rattle.std.specs.Int.{from_bool};
ghost use Rattle.basics.specs.Lists.{first_where, distinct};
ghost use Rattle.side.specs.Table.{level_of};
ghost use Rattle.rules.specs.Book.{places_a_side, unused, numbers, earlier as earlierStamp, ranks_before, in_rank_order};
ghost use Rattle.side.specs.Looking.{Newest, rank_of, Hinted, Named};

use crate::rows::{Index, PART, PLACES};
use crate::table::Table;
use kinds::Number;
use rules::{Resting, Stamp};

// ── The order of a number ──

// Place `j` where the byte there names the row, else 0.
fn here(b: u8, slot: u8, j: u8) -> u8
    ensures { result ≡ (if eqb b slot then j else 0) }
{
    if b == slot { j } else { 0 }
}

// A place before `n` of an index whose byte names a row. It looks for it part by part, with no branch on a single byte and one on what a
// part gave (the compiler makes vectors of a part; a search that leaves at the first has a branch for each byte); that it finds the place,
// if there is one, is not promised. Of an index: what it promises is of its bytes, which no clause on a `Table` sees.
fn place_of(x: &Index, n: usize, slot: u8) -> Option<usize>
    requires { n ≤ places_a_side }
    ensures { Named slot n x.now result }
{
    let steps = rows::STEPS;
    for part in (0..n).step_by(PART) {
        let mut found: u8 = 0;
        for i in 0..PART {
            let b = x[part + i];
            let j = steps[i];
            found = found.max(here(b, slot, j));
        }
        let at = part + usize::from(found);
        if x[at] == slot {
            return if at < n { Some(at) } else { None };
        }
    }
    None
}

impl Table {
    // The rank of the order of a number, wherever it rests; `follow_hint` is faster, and may find nothing.
    pub fn find(&self, number: Number) -> Option<usize>
        ensures { result ≡ rank_of number self.now }
    {
        for rank in 0..self.len() {
            let o = self.at(rank);
            if o.number == number {
                return Some(rank);
            }
        }
        None
    }

    // The rank of the order to which the hint of a number leads: the hint may be of another number, and then says nothing.
    pub fn follow_hint(&self, number: Number) -> Option<usize>
        requires { distinct (numbers self.now) ≡ true }
        ensures { Hinted number self.now result }
    {
        let hint = self.index[rows::hint_of(number)];
        let slot = usize::from(hint) % PLACES;
        let o = self.rows[slot].order;
        if o.number != number {
            return None;
        }
        let i = place_of(&self.index, self.held, hint)?;
        Some(self.held - 1 - i)
    }
}

// ── Rank ──

// Whether a stamp is earlier than another: an earlier command set it, or the same one at an earlier place. By values, as below.
fn earlier(s: Stamp, t: Stamp) -> bool
    ensures { result ≡ earlierStamp s t }
{
    (s.command < t.command) | ((s.command == t.command) & (s.place < t.place))
}

// Whether `x` ranks before `y`. By values and not by ways, so that it compiles to no branch.
pub fn ranks_before(buying: bool, x: Resting, y: Resting) -> bool
    ensures { result ≡ ranks_before buying x y }
{
    let stamped = earlier(x.stamp, y.stamp);
    let nearer = (buying & (y.price < x.price)) | (!buying & (x.price < y.price));
    let first = (x.displayed & !y.displayed) | ((x.displayed | !y.displayed) & stamped);
    nearer | ((x.price == y.price) & first)
}

// ── A new order's place ──

impl Table {
    // 1 where an order whose level is `mine` ranks before the one at a rank, by their levels, else 0. A number and not a choice: the sum of
    // three of them is no branch.
    fn is_passed(&self, rank: usize, buying: bool, mine: u32) -> usize
        requires { rank < length self.now }
        ensures { result ≡ from_bool (ltb mine (level_of buying (get_or self.now rank unused))) }
    {
        let level = self.level_at(rank, buying);
        usize::from(mine < level)
    }

    // The place that a new order takes: before the first that it ranks before. The side is in rank order, so each turn halves the range in
    // which that place lies twice, by three orders that it looks at together; how many turns there are depends on the length alone. Of the
    // newest order price and display decide the rank.
    pub(crate) fn place(&self, buying: bool, o: Resting) -> usize
        requires ranked { in_rank_order buying self.now ≡ true }
        requires newest { Newest o self.now }
        ensures { result ≡ first_where (ranks_before buying o) self.now }
    {
        let mine = rows::level_of(o, buying);
        let n = self.len();
        let mut low = 0;
        let mut range = n;
        // Two `while`: the range shrinks by what three orders tell, which no step of a `for` is.
        while 3 <= range {
            let quarter = (range + 1) / 4;
            let a = self.is_passed(n - (low + quarter), buying, mine);
            let b = self.is_passed(n - (low + 2 * quarter), buying, mine);
            let c = self.is_passed(n - (low + 3 * quarter), buying, mine);
            low = low + quarter * (a + b + c);
            range = range - 3 * quarter;
        }
        while 0 < range {
            low = low + self.is_passed(n - (low + 1), buying, mine);
            range -= 1;
        }
        n - low
    }
}
