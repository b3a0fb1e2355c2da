// A walk over one side of the book for a number of shares: what each part of its orders gives, one taking after the other.
ghost use Rattle.std.specs.Prelude.{false, ◌≡◌, ◌-◌, ◌<◌, ◌++◌, length};
ghost use Rattle.kinds.specs.Kinds.{shares};
ghost use Rattle.orders.specs.Cursor.{parts};
ghost use Rattle.orders.specs.Room.{most_takings};
ghost use Rattle.orders.specs.Walk.{is_within, part_is_skipped, part_gives, taking, walked_of, takings_of};

use crate::cursor;
use crate::cursor::{Cursor, Part};
use crate::takings::{Taking, Takings};
use kinds::{HalfCents, Shares};
use side::prices;
use side::rows::PLACES;
use side::table::Table;

// How a walk ended: `left` shares are still wanted, and no order from `at` on was reached. `skipped` is the first order that was skipped
// (02, W7), or past all places, as one comparison of both wants it; of an order that takes nothing both are 0.
#[derive(Clone, Copy)]
pub struct Walked {
    pub left: Shares,
    pub at: usize,
    pub skipped: usize,
}

// Whether a part is skipped: fewer shares are left than the smaller of its order's minimum and what it holds.
fn is_skipped(left: Shares, p: Part) -> bool
    ensures { result ≡ part_is_skipped left.0 p }
{
    let least = p.minimum.min(p.shares);
    left < least
}

// What a part that is not skipped gives.
fn given_by(p: Part, left: Shares) -> Shares
    requires takes { part_is_skipped left.0 p ≡ false }
    ensures { result ≡ shares (part_gives left.0 p) }
{
    left.min(p.shares)
}

// Takes from a part that is not skipped what it gives, as the next taking; the shares that are left. One that gives nothing is no taking.
fn take_from(took: &mut Takings, left: Shares, p: Part) -> Shares
    requires room { length took.old < most_takings }
    requires takes { part_is_skipped left.0 p ≡ false }
    ensures value { result ≡ shares (left.0 - part_gives left.0 p) }
    ensures took_after { took.new ≡ took.old ++ taking p (part_gives left.0 p) }
{
    let gives = given_by(p, left);
    if gives.0 != 0 {
        took.push(Taking {
            place: p.place,
            price: p.price,
            shares: gives,
        });
    }
    Shares(left.0 - gives.0)
}

// Walks the parts of a side's orders in their order, for `want` shares. The walk ends at the first part whose price is beyond the bound, or
// with nothing left; one that is skipped is passed.
pub(crate) fn walk(
    t: &Table,
    buying: bool,
    bound: HalfCents,
    want: Shares,
    took: &mut Takings,
) -> Walked
    ensures value { result ≡ walked_of (is_within buying bound) want.0 (parts t.now) }
    ensures took_after { took.new ≡ takings_of (is_within buying bound) want.0 (parts t.now) }
{
    took.clear();
    let mut c = Cursor {
        at: 0,
        waits: 0,
        level: HalfCents(0),
    };
    let mut left = want;
    let mut skipped = PLACES;
    // 01 names the form: a loop left by `break`, with what is left and the place where it stopped.
    loop {
        if left.0 == 0 {
            break;
        }
        let Some((part, next)) = cursor::next(t, c) else {
            break;
        };
        if !prices::within(buying, bound, part.price) {
            break;
        }
        if is_skipped(left, part) {
            skipped = skipped.min(part.place);
        } else {
            left = take_from(took, left, part);
        }
        c = next;
    }
    Walked {
        left,
        at: c.at,
        skipped,
    }
}
