// A moved quote settles a side (02, W2): the orders that would now cross it are set anew, or cancelled. One function for both sides of the
// market.
ghost use Rattle.std.specs.Prelude.{true, false, ◌≡◌, ◌+◌, ◌≤◌, ◌<◌, length, get_or, Some, None, if◌then◌else◌};
ghost use Rattle.basics.specs.Bytes.{onto};
ghost use Rattle.basics.specs.Lists.{All};
ghost use Rattle.kinds.specs.Kinds.{largest};
ghost use Rattle.rules.specs.Book.{unused, stamp, in_rank_order};
ghost use Rattle.rules.specs.Commands.{quote_fate};
ghost use Rattle.rules.specs.EventLines.{event_lines};
ghost use Rattle.rules.specs.Settling.{told, settled_side};
ghost use Rattle.rules.specs.Working.{locking_price};
ghost use Rattle.side.specs.Looking.{price_bound, Older};
ghost use Rattle.side.specs.Shifts.{Countable};
ghost use Rattle.quotes.specs.Moves.{goes_on, fate_at};
ghost use Rattle.settling.specs.OneByOne.{settled_in};

use kinds::{HalfCents, Number};
use rules::{Away, Fate, Reason, Resting};
use settling::Settling;
use side::prices;
use side::table::Table;

// ── A moved quote ──

// The order at a rank, if its price is beyond a Locking Price that is there.
fn beyond_at(t: &Table, at: usize, buying: bool, locking: HalfCents) -> Option<Resting>
    ensures { result ≡ (if goes_on buying locking at t.now then Some (get_or t.now at unused) else None) }
{
    let o = t.get(at)?;
    if (locking == HalfCents(0)) | prices::within(buying, locking, o.price) {
        return None;
    }
    Some(o)
}

// What becomes of an order that is not displayed and would now cross: it is set at the Locking Price, or with Cancel Back cancelled.
fn fate_beyond(o: Resting, locking: HalfCents) -> Fate
    ensures { result ≡ fate_at locking o }
{
    if o.back {
        return Fate::IsCancelled(u8::from(Reason::CancelledBack));
    }
    Fate::IsSet(Resting {
        price: locking,
        ..o
    })
}

// The moves of one side: from the best order on, as far as prices are beyond the Locking Price. A displayed order is passed over, and
// one that is set anew stands behind all that are still to be looked at.
pub(crate) fn move_side(
    t: &mut Table,
    buying: bool,
    away: Away,
    number: Number,
    first: u32,
    out: &mut [u8],
) -> Settling
    requires ranked { in_rank_order buying t.old ≡ true }
    requires older { All (Older (stamp number first)) t.old }
    requires places { first + length t.old < largest }
    requires room { length (event_lines (told (quote_fate away buying) t.old)) ≤ length out.old }
    requires countable { All Countable t.old }
    requires priced { (locking_price buying away).0 < price_bound }
    ensures value { result ≡ settled_in number first buying (quote_fate away buying) t.old }
    ensures side_after { t.new ≡ settled_side number first buying (quote_fate away buying) t.old }
    ensures out_after { out.new ≡ onto (event_lines (told (quote_fate away buying) t.old)) out.old }
{
    let locking = prices::locking_price(buying, away);
    let mut m = Settling {
        number,
        buying,
        next: first,
        length: 0,
    };
    let mut at = 0;
    // A `while` and no `for`: the next order comes to stand at the rank of one that is settled, so not each turn goes one rank on.
    while let Some(o) = beyond_at(t, at, buying, locking) {
        if o.displayed {
            at += 1;
        } else {
            m = m.settle(t, at, o, fate_beyond(o, locking), out);
        }
    }
    m
}
