// An order matched in place, all of 01's steps on its own side and the opposite one, with the refusal for a full side. One function for both
// sides of the market.
ghost use Rattle.std.specs.Prelude.{true, not, ◌++◌, ◌≡◌, ◌≤◌, ◌<◌, ◌+◌, ◌*◌, length};
ghost use Rattle.basics.specs.Bytes.{onto};
ghost use Rattle.rules.specs.Book.{places_a_side};
ghost use Rattle.rules.specs.EventLines.{event_lines};
ghost use Rattle.rules.specs.Refusals.{is_rest, least_room};
ghost use Rattle.kinds.specs.Kinds.{shares};
ghost use Rattle.rules.specs.Settling.{first_move, told, settled_side};
ghost use Rattle.rules.specs.Working.{floor_of, last_line, remainder_of, with_remainder, refill_fate, buying};
ghost use Rattle.orders.specs.Matching.{match_of, Ready, MayRest, Matches};
ghost use Rattle.orders.specs.Walking.{met_with};
ghost use Rattle.orders.specs.Refills.{MayRefill};

use crate::takings::Takings;
use crate::{fills, pricing, refills, reports, work};
use event_lines::writer;
use judge::instructions;
use kinds::{HalfCents, Number, Shares};
use rules::{Away, Carried, Ending, Order, Refusal, Resting, Stamp};
use side::table::Table;

// Whether the rest of an order comes to rest.
fn is_rest(end: Ending) -> bool
    ensures { result ≡ is_rest end }
{
    matches!(end, Ending::Rests(_))
}

// The Max Floor of an order, 0 for none (02, W4); `work::minimum_of` is its like, as no parameter names a case.
fn floor_of(carried: Carried) -> Shares
    ensures { result ≡ shares (floor_of carried) }
{
    match carried {
        Carried::MaxFloor(floor) => floor,
        Carried::Nothing | Carried::Minimum(_) => Shares(0),
    }
}

// What rests of an order: it shows its Max Floor, or what is left if that is less, and so of its minimum.
fn remainder_of(number: Number, o: Order, left: Shares, price: HalfCents) -> Resting
    ensures { result ≡ remainder_of number o left.0 price }
{
    let floor = floor_of(o.carried);
    let shown = refills::shown_of(floor, left);
    let least = work::minimum_of(o.carried).min(left);
    Resting {
        number,
        price,
        shares: shown,
        displayed: instructions::has(o.word, rules::DISPLAYED),
        back: instructions::has(o.word, rules::CANCEL_BACK),
        stamp: Stamp {
            command: number,
            place: 0,
        },
        reserve: Shares(left.0 - shown.0),
        floor,
        minimum: least,
    }
}

// What becomes of the shares left of an order, after its executions: its last line, if it has one, and its own side with what rests; the
// length of the line.
fn conclude(
    o: Order,
    number: Number,
    end: Ending,
    left: Shares,
    own: &mut Table,
    out: &mut [u8],
) -> usize
    requires place { is_rest end ≡ true → length own.old < places_a_side }
    requires may_rest { MayRest (buying o) number end own.old }
    requires room { 27 ≤ length out.old }
    ensures value { result ≡ length (event_lines (last_line number left.0 end)) }
    ensures own_after { own.new ≡ with_remainder number o left.0 end own.old }
    ensures out_after { out.new ≡ onto (event_lines (last_line number left.0 end)) out.old }
{
    match end {
        Ending::Filled => 0,
        Ending::Cancels(reason) => writer::write_cancelled(out, number, left, u8::from(reason)),
        Ending::Rests(price) => {
            own.rest(o.is_buy(), remainder_of(number, o, left, price));
            writer::write_rested(out, number, price, left)
        }
    }
}

// What is left of an order comes to its ending, on its own side, and then the refills are made that are due on the opposite one, of whose
// first `reached` orders each was reached by the walk: the order's last line, and those of the refills; their length.
fn finish(
    o: Order,
    number: Number,
    end: Ending,
    left: Shares,
    own: &mut Table,
    opposite: &mut Table,
    reached: usize,
    out: &mut [u8],
) -> usize
    requires place { is_rest end ≡ true → length own.old < places_a_side }
    requires may_rest { MayRest (buying o) number end own.old }
    requires may_refill { MayRefill (not (buying o)) number reached opposite.old }
    requires room { 27 + 27 * length opposite.old ≤ length out.old }
    ensures value { result ≡ length (event_lines (last_line number left.0 end ++ told refill_fate opposite.old)) }
    ensures own_after { own.new ≡ with_remainder number o left.0 end own.old }
    ensures opposite_after { opposite.new ≡ settled_side number first_move (not (buying o)) refill_fate opposite.old }
    ensures out_after { out.new ≡ onto (event_lines (last_line number left.0 end ++ told refill_fate opposite.old)) out.old }
{
    let len = conclude(o, number, end, left, own, out);
    let more = refills::refill(opposite, reached, !o.is_buy(), number, &mut out[len..]);
    len + more
}

// An order is matched, and the refills are made that are due then (02, W4); the length of all lines. The refusal of a full side leaves both
// sides and every byte as they were: it is judged, as Fill-or-Kill is, before a line is written.
pub(crate) fn match_order(
    o: Order,
    number: Number,
    away: Away,
    own: &mut Table,
    opposite: &mut Table,
    took: &mut Takings,
    out: &mut [u8],
) -> Result<usize, Refusal>
    requires ready { Ready o number (met_with away own.old opposite.old) }
    requires room { least_room ≤ length out.old }
    ensures { Matches result own.new opposite.new out.new out.old (match_of o number (met_with away own.old opposite.old)) }
{
    let locked = pricing::locked_price(own);
    let bound = pricing::bound_under(o, away, locked);
    let w = work::walk_of(o, bound, opposite, took);
    let unreached = opposite.len() - w.at;
    let kept = w.skipped.min(w.at);
    let end = work::ending_of(o, away, locked, opposite, kept, w.left);
    let full = is_rest(end) & own.is_full();
    if full {
        return Err(Refusal::FullSide);
    }
    let length = reports::report(opposite, took, number, o.is_buy(), locked, out);
    fills::take_off(opposite, w.at, took);
    let reached = opposite.len() - unreached;
    let more = finish(
        o,
        number,
        end,
        w.left,
        own,
        opposite,
        reached,
        &mut out[length..],
    );
    Ok(length + more)
}
