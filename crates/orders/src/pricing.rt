// The prices that an order goes by (01, How an order is worked; 02, W6): how far its walk goes, and at which price it executes (step 1),
// and the price that a Day remainder seeks (step 4).
ghost use Rattle.std.specs.Prelude.{◌≡◌, ◌-◌, ◌≤◌, ◌<◌};
ghost use Rattle.kinds.specs.Kinds.{largest};
ghost use Rattle.rules.specs.Working.{buying, limit_of, locking_price, half_a_cent_the_incoming_way, one_cent_less_aggressive, adjusted, seeks};
ghost use Rattle.orders.specs.Bound.{farthest, bound_of, bound_under};
ghost use Rattle.orders.specs.Locks.{locked_price, executes_at};

use judge::instructions;
use kinds::HalfCents;
use rules::{Away, Ending, Order, Reason};
use side::prices;
use side::table::Table;

// ── Step 1: how far the walk goes, and at which price ──

// The price at which hidden orders of the opposite side are locked, if any rest there: since nothing crosses, it can only be the best price
// of the order's own side, and its best order is displayed if any at that price is. 0 where none is displayed there, as an
// away price is 0 for none.
pub(crate) fn locked_price(t: &Table) -> HalfCents
    ensures { result ≡ locked_price t.now }
{
    match t.get(0) {
        Some(best) if best.displayed => best.price,
        _ => HalfCents(0),
    }
}

fn half_a_cent(buy: bool, p: HalfCents) -> HalfCents
    requires { p.0 < largest }
    ensures { result ≡ half_a_cent_the_incoming_way buy p }
{
    if buy {
        return p.half_above();
    }
    p.half_below()
}

// The price of an execution against an order that rests at `price`.
pub(crate) fn execution_price(buy: bool, locked: HalfCents, price: HalfCents) -> HalfCents
    requires { locked.0 < largest }
    ensures { result ≡ executes_at buy locked price }
{
    if price == locked {
        return half_a_cent(buy, price);
    }
    price
}

// The limit, or for a market order the farthest price that there is.
#[tactic(auto, unfolding(crate::specs::Bound::farthest))]
fn limit_of(o: Order) -> HalfCents
    requires { (limit_of o).0 ≤ largest }
    ensures { result ≡ farthest o }
{
    let price = o.price;
    if !instructions::has(o.word, rules::MARKET) {
        return price.in_half_cents();
    }
    if o.is_buy() {
        return HalfCents(kinds::LARGEST);
    }
    HalfCents(0)
}

// The limit, or the away price where that comes first and restricts the order.
#[tactic(auto, unfolding(crate::specs::Bound::bound_of))]
fn bound_of(o: Order, away: Away) -> HalfCents
    requires { ((limit_of o).0 ≤ largest) × ((locking_price (buying o) away).0 ≤ largest) }
    ensures { result ≡ bound_of o away }
{
    let buy = o.is_buy();
    let limit = limit_of(o);
    let locking = prices::locking_price(buy, away);
    if instructions::has(o.word, rules::ISO) | (locking.0 == 0) {
        return limit;
    }
    if prices::within(buy, locking, limit) {
        return limit;
    }
    locking
}

// The same for the prices at which orders rest: those at the locked price would execute half a cent beyond it.
pub(crate) fn bound_under(o: Order, away: Away, locked: HalfCents) -> HalfCents
    requires { ((limit_of o).0 ≤ largest) × ((locking_price (buying o) away).0 ≤ largest) × (locked.0 < largest) }
    ensures { result ≡ bound_under (buying o) locked (bound_of o away) }
{
    let bound = bound_of(o, away);
    if bound == locked {
        return half_a_cent(!o.is_buy(), bound);
    }
    bound
}

// ── Step 4: the price that a remainder seeks ──

fn less_aggressive(buy: bool, p: HalfCents) -> HalfCents
    requires { p.0 < largest - 1 }
    ensures { result ≡ one_cent_less_aggressive buy p }
{
    if buy {
        return p.below();
    }
    p.above()
}

// Price Adjust takes the price, if it is in range; Cancel Back cancels.
fn adjust(o: Order, price: HalfCents) -> Ending
    ensures { result ≡ adjusted o price }
{
    if instructions::has(o.word, rules::CANCEL_BACK) {
        return Ending::Cancels(Reason::CancelledBack);
    }
    if price.in_range() {
        return Ending::Rests(price);
    }
    Ending::Cancels(Reason::NoPriceInRange)
}

#[tactic(auto, unfolding(rules::specs::Working::seeks))]
pub(crate) fn seek(o: Order, away: Away) -> Ending
    requires { ((limit_of o).0 ≤ largest) × ((locking_price (buying o) away).0 < largest - 1) }
    ensures { result ≡ seeks o away }
{
    let buy = o.is_buy();
    let price = o.price.in_half_cents();
    let locking = prices::locking_price(buy, away);
    if instructions::has(o.word, rules::ISO) | (locking.0 == 0) {
        return Ending::Rests(price);
    }
    let crosses = !prices::within(buy, locking, price);
    let displayed = instructions::has(o.word, rules::DISPLAYED);
    if displayed & ((price == locking) | crosses) {
        return adjust(o, less_aggressive(buy, locking));
    }
    if !displayed & crosses {
        return adjust(o, locking);
    }
    Ending::Rests(price)
}
