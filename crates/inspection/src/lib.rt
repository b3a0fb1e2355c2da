// Whether a book is sound (01, The book), decided on its record, whatever it holds.

#![tactic(auto)]

ghost use Rattle.std.specs.Prelude.{◌≡◌, ◌≤◌, eqb};
ghost use Rattle.basics.specs.Lists.{any};
ghost use Rattle.kinds.specs.Kinds.{shares, shares_in_range};
ghost use Rattle.rules.specs.Book.{numbers, places_a_side, shares_left, floor_in_range, minimum_in_range, resting_in_range, apart, record_sound};
ghost use Rattle.side.specs.Sides.{places_on};
ghost use Rattle.inspection.specs.Inspection.{ranks_before_next, order_sound, side_sound, held_sound};

use kinds::{Number, Shares};
use rules::{Held, Resting};
use side::rows;
use side::rows::PLACES;
use side::tables::Side;

// ── One order ──

// The sum may be more than a word holds.
fn shares_left(o: Resting) -> u64
    ensures { result ≡ shares_left o }
{
    u64::from(o.shares.0) + u64::from(o.reserve.0)
}

// The shares of both parts are as many as an order may have.
fn left_in_range(o: Resting) -> bool
    ensures { result ≡ shares_in_range (shares (shares_left o)) }
{
    let left = shares_left(o);
    (u64::from(Shares::FEWEST) <= left) & (left <= u64::from(Shares::MOST))
}

// No Max Floor, and then no reserve; or a share count in range, no less than the shown part, of a displayed order (02, W4).
fn floor_in_range(o: Resting) -> bool
    ensures { result ≡ floor_in_range o }
{
    let floor = o.floor;
    let none = floor.0 == 0;
    (none & (o.reserve.0 == 0)) | (!none & (o.displayed & (o.shares <= floor) & floor.in_range()))
}

// No minimum; or no more than what is left of an order that is not displayed (02, W7).
fn minimum_in_range(o: Resting) -> bool
    ensures { result ≡ minimum_in_range o }
{
    (o.minimum.0 == 0) | (!o.displayed & (u64::from(o.minimum.0) <= shares_left(o)))
}

// Fields in range; numbers from 1 to the last number; a stamp set by a command from the order's own to the last; a share shown at least.
fn in_range(last: Number, o: Resting) -> bool
    ensures { result ≡ resting_in_range last o }
{
    let stamp = o.stamp;
    (1 <= o.number.0)
        & (o.number <= last)
        & o.price.in_range()
        & ((o.number <= stamp.command) & (stamp.command <= last))
        & (1 <= o.shares.0)
        & left_in_range(o)
        & floor_in_range(o)
        & minimum_in_range(o)
}

// ── One order among others ──

// Whether the order ranks before the first of those behind it, if there is one.
fn ranks_before_next(buying: bool, o: Resting, behind: &[Resting]) -> bool
    ensures { result ≡ ranks_before_next buying o behind.now }
{
    match behind.first() {
        Some(next) => side::ranks_before(buying, o, *next),
        None => true,
    }
}

// Whether an order has the number.
fn has_number(orders: &[Resting], number: Number) -> bool
    ensures { result ≡ any (eqb number.0) (numbers orders.now) }
{
    orders.iter().any(|o| o.number == number)
}

// What sound says of an order: it is compared with those behind it, and its number with those of the other side.
fn order_sound(
    buying: bool,
    last: Number,
    others: &[Resting],
    o: Resting,
    behind: &[Resting],
) -> bool
    ensures { result ≡ order_sound buying last (numbers others.now) o behind.now }
{
    let ranged = in_range(last, o);
    let ranked = ranks_before_next(buying, o, behind);
    let again = has_number(behind, o.number);
    let opposite = has_number(others, o.number);
    ranged & ranked & !again & !opposite
}

// ── One side ──

// The same of all its orders; and every other place is unused.
pub fn side_sound(side: &Side, buying: bool, last: Number, others: &[Resting]) -> bool
    requires { side.now.used ≤ places_a_side }
    ensures { result ≡ side_sound buying last (numbers others.now) side.now.used side.now.places }
{
    let (orders, rest) = side.places.split_at(side.used);
    for (i, o) in orders.iter().enumerate() {
        if !order_sound(buying, last, others, *o, &orders[i + 1..]) {
            return false;
        }
    }
    rest.iter().all(|o| rows::is_unused(*o))
}

// ── The book ──

// Displayed never meets displayed, and nothing crosses: the best two tell (02, W6).
#[tactic(auto, unfolding(rules::specs::Book::apart))]
fn are_apart(buys: &[Resting], sells: &[Resting]) -> bool
    ensures { result ≡ apart buys.now sells.now }
{
    let Some(buy) = buys.first() else {
        return true;
    };
    let Some(sell) = sells.first() else {
        return true;
    };
    if buy.displayed & sell.displayed {
        return buy.price < sell.price;
    }
    buy.price <= sell.price
}

// What sound says of a book besides its orders, of which there are so many.
fn held_sound(held: &Held, buys: usize, sells: usize) -> bool
    ensures { result ≡ held_sound held.now buys sells }
{
    (judge::OPENING <= held.time)
        & (held.time <= judge::CLOSING)
        & judge::away_in_range(held.away.bid)
        & judge::away_in_range(held.away.offer)
        & (!held.closed | ((buys == 0) & (sells == 0)))
}

pub fn is_sound(held: &Held, buys: &Side, sells: &Side) -> bool
    ensures { result ≡ record_sound (record { held = held.now; buys = places_on buys.now; sells = places_on sells.now }) }
{
    if (PLACES < buys.used) | (PLACES < sells.used) {
        return false;
    }
    let last = held.last;
    let selling = sells.orders();
    let bought = side_sound(buys, true, last, selling);
    // The numbers of the buys were compared with all of these: for the sells none of the other side is left to compare.
    let sold = side_sound(sells, false, last, &[]);
    let buying = buys.orders();
    let apart = are_apart(buying, selling);
    bought & sold & apart & held_sound(held, buys.used, sells.used)
}
