// An order's walk of the opposite side, with Post Only and Fill-or-Kill (01, How an order is worked, 1 and 2), and what becomes of the
// order (2 to 6): filled, at rest at a price, or cancelled for a reason.
ghost use Rattle.std.specs.Prelude.{◌≡◌, ◌-◌, ◌≤◌, ◌<◌, drop};
ghost use Rattle.kinds.specs.Kinds.{shares, largest};
ghost use Rattle.rules.specs.Working.{buying, limit_of, locking_price, meets_or_passes, minimum_of, least_of};
ghost use Rattle.orders.specs.Walking.{walk_for, takings_for, rests_unless_best_meets, ending_by_best};

use crate::takings::Takings;
use crate::walk::Walked;
use crate::{pricing, walk};
use judge::instructions;
use kinds::{HalfCents, Shares};
use rules::{Away, Carried, Ending, Order, Reason, Resting};
use side::prices;
use side::table::Table;

// The minimum of an order, 0 for none (02, W7).
pub(crate) fn minimum_of(carried: Carried) -> Shares
    ensures { result ≡ shares (minimum_of carried) }
{
    match carried {
        Carried::Minimum(least) => least,
        Carried::Nothing | Carried::MaxFloor(_) => Shares(0),
    }
}

// The least that an order's walk must give, or nothing executes: all its shares where it is a Fill-or-Kill, else its minimum, 0 for none.
fn least_of(o: Order) -> Shares
    ensures { result ≡ shares (least_of o) }
{
    if instructions::has(o.word, rules::FOK) {
        return o.shares;
    }
    minimum_of(o.carried)
}

// The walk of an order up to a bound, with its takings: Post Only takes nothing, nor does an order whose walk gives less than the least
// that it must.
#[tactic(auto, unfolding(crate::specs::Walking::walk_for, crate::specs::Walking::takings_for))]
pub(crate) fn walk_of(o: Order, bound: HalfCents, t: &Table, took: &mut Takings) -> Walked
    ensures value { result ≡ walk_for o bound t.now }
    ensures took_after { took.new ≡ takings_for o bound t.now }
{
    let nothing = Walked {
        left: o.shares,
        at: 0,
        skipped: 0,
    };
    if instructions::has(o.word, rules::POST_ONLY) {
        took.clear();
        return nothing;
    }
    let w = walk::walk(t, o.is_buy(), bound, o.shares, took);
    let too_few = o.shares.0 - w.left.0 < least_of(o).0;
    if too_few {
        took.clear();
        return nothing;
    }
    w
}

// Whether a Post Only order at a price meets or passes an opposite order (02, W6).
fn meets(buy: bool, price: HalfCents, best: Resting) -> bool
    ensures { result ≡ meets_or_passes buy price best }
{
    if best.displayed {
        prices::within(buy, price, best.price)
    } else {
        !prices::within(buy, best.price, price)
    }
}

// Steps 5 and 6, of an order that seeks to rest at a price: Post Only is cancelled where it meets or passes the best opposite order that is
// left, any other where it equals or passes it, but at the locked price (02, W7). With shares left over, the best of those left stands at
// rank `kept`.
fn rest_unless_meets(
    o: Order,
    locked: HalfCents,
    t: &Table,
    kept: usize,
    price: HalfCents,
) -> Ending
    ensures { result ≡ rests_unless_best_meets o locked (drop kept t.now) price }
{
    let Some(best) = t.get(kept) else {
        return Ending::Rests(price);
    };
    let buy = o.is_buy();
    if instructions::has(o.word, rules::POST_ONLY) {
        if meets(buy, price, best) {
            return Ending::Cancels(Reason::PostOnlyMeets);
        }
        return Ending::Rests(price);
    }
    let still_meets = prices::within(buy, price, best.price) & (price != locked);
    if still_meets {
        return Ending::Cancels(Reason::WouldStillMeet);
    }
    Ending::Rests(price)
}

// What becomes of an order of which `left` shares are left after the walk.
#[tactic(auto, unfolding(crate::specs::Walking::ending_by_best))]
pub(crate) fn ending_of(
    o: Order,
    away: Away,
    locked: HalfCents,
    t: &Table,
    kept: usize,
    left: Shares,
) -> Ending
    requires limited { (limit_of o).0 ≤ largest }
    requires locking_priced { (locking_price (buying o) away).0 < largest - 1 }
    ensures { result ≡ ending_by_best left.0 o away locked (drop kept t.now) }
{
    if left.0 == 0 {
        return Ending::Filled;
    }
    if instructions::has(o.word, rules::FOK) {
        return Ending::Cancels(Reason::FokKilled);
    }
    if instructions::has(o.word, rules::IOC) {
        return Ending::Cancels(Reason::IocRemainder);
    }
    let sought = pricing::seek(o, away);
    let Ending::Rests(price) = sought else {
        return sought;
    };
    rest_unless_meets(o, locked, t, kept, price)
}
