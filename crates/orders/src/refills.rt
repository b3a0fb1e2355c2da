// Refills (02, W4): a resting order whose shown part a walk has used up, and of which reserve is left, is shown anew, to its Max Floor or
// what is left, with a new stamp and a line. One function for both sides of the market.
ghost use Rattle.std.specs.Prelude.{◌≡◌, ◌≤◌, length};
ghost use Rattle.basics.specs.Bytes.{onto};
ghost use Rattle.kinds.specs.Kinds.{shares};
ghost use Rattle.rules.specs.EventLines.{event_lines};
ghost use Rattle.rules.specs.Settling.{shown_of, refilled, first_move, told, settled_side};
ghost use Rattle.rules.specs.Working.{refill_fate};
ghost use Rattle.side.specs.Shifts.{Countable};
ghost use Rattle.orders.specs.Refills.{MayRefill};

use kinds::{Number, Shares};
use rules::{Fate, Resting};
use settling::Settling;
use side::rows;
use side::table::Table;

// The shares that an order shows of those left: its Max Floor, or what is left if that is less; all of them where it has none.
pub(crate) fn shown_of(floor: Shares, left: Shares) -> Shares
    ensures { result ≡ shares (shown_of floor.0 left.0) }
{
    if floor.0 == 0 {
        return left;
    }
    floor.min(left)
}

// An order whose shown part is refilled from its reserve.
fn refill_order(o: Resting) -> Resting
    requires { Countable o }
    ensures { result ≡ refilled o }
{
    let left = rows::shares_left(o);
    let shown = shown_of(o.floor, left);
    Resting {
        shares: shown,
        reserve: Shares(left.0 - shown.0),
        ..o
    }
}

// The refills that are due on a side: of its first `reached` orders, which a walk reached, those that show nothing, in rank order; the
// length of the lines. One that is refilled takes its place behind all displayed at its price, which may be before others that are due: so
// the loop passes it there.
pub(crate) fn refill(
    t: &mut Table,
    reached: usize,
    buying: bool,
    number: Number,
    out: &mut [u8],
) -> usize
    requires may { MayRefill buying number reached t.old }
    requires room { length (event_lines (told refill_fate t.old)) ≤ length out.old }
    ensures value { result ≡ length (event_lines (told refill_fate t.old)) }
    ensures settles { t.new ≡ settled_side number first_move buying refill_fate t.old }
    ensures out_after { out.new ≡ onto (event_lines (told refill_fate t.old)) out.old }
{
    let mut m = Settling {
        number,
        buying,
        next: settling::FIRST_MOVE,
        length: 0,
    };
    let mut at = 0;
    // A `while` and no `for`: an order that is refilled leaves its rank to the next. `quotes::moves` has another loop, for other orders and as
    // far as another test says: what both share is `settle`.
    while at < reached {
        let o = t.at(at);
        let is_shown = o.shares.0 != 0;
        if is_shown {
            at += 1;
        } else {
            m = m.settle(t, at, o, Fate::IsSet(refill_order(o)), out);
        }
    }
    m.length
}
