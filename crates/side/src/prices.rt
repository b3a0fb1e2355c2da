// The prices that both sides of the market go by: whether one is beyond a bound, and the Locking Price (01, How an order is worked).
ghost use Rattle.std.specs.Prelude.{not, ◌≡◌, ◌≤◌};
ghost use Rattle.kinds.specs.Kinds.{largest};
ghost use Rattle.rules.specs.Working.{beyond, locking_price};

use kinds::HalfCents;
use rules::Away;

// Whether a price is not beyond a bound. By values and not by ways, so that it compiles to no branch.
pub fn within(buying: bool, bound: HalfCents, price: HalfCents) -> bool
    ensures { result ≡ not (beyond buying bound price) }
{
    !((buying & (bound < price)) | (!buying & (price < bound)))
}

// The Locking Price, 0 for none as the away price is that it comes from.
pub fn locking_price(buy: bool, away: Away) -> HalfCents
    requires { (locking_price buy away).0 ≤ largest }
    ensures { result ≡ locking_price buy away }
{
    if buy {
        return away.offer.in_half_cents();
    }
    away.bid.in_half_cents()
}
