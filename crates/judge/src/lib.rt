// Which refusal a command's own fields get, against what the book last accepted (01, What the machine says back): 4 to 7 by the
// header, 8 and 9 by an order's body, 9 by a quote's.

#![tactic(auto)]

pub mod instructions;

ghost use Rattle.std.specs.Prelude.{◌≡◌};
ghost use Rattle.rules.specs.Book.{away_in_range};
ghost use Rattle.rules.specs.Refusals.{first_of, is_close, header_refusals};
ghost use Rattle.rules.specs.Refusals.{carries_floor, carries_minimum, order_lawful, carried_in_range, order_in_range};
ghost use Rattle.rules.specs.Refusing.{or_refused};
ghost use Rattle.judge.specs.Judge.{book_holding};

use kinds::{Cents, Shares};
use rules::{Body, Carried, Command, Held, Order, Refusal};

// The session, in milliseconds after midnight Eastern.
pub const OPENING: u32 = 34200000;

pub const CLOSING: u32 = 57600000;

// ── The header ──

// A name for one test, since 01's definitions have it; so are those of what an order carries.
fn is_close(body: Body) -> bool
    ensures { result ≡ is_close body }
{
    matches!(body, Body::Close)
}

// The first of refusals 4 to 7 that the header gets, if it gets one. The difference of the numbers is taken, so that the last number may
// be the largest of four bytes.
pub fn header(h: Held, c: Command) -> Result<(), Refusal>
    ensures { result ≡ or_refused tt (first_of (header_refusals (book_holding h) c)) }
{
    let number = c.number;
    let time = c.time;
    let closing = is_close(c.body);
    // Numbers and not kinds are compared: so the edits that turn this test fail at a fact, and not at the name of a call.
    let seen = number.0 <= h.last.0;
    if seen {
        return Err(Refusal::SeenAlready);
    }
    let ahead = 1 < number.0 - h.last.0;
    if ahead {
        return Err(Refusal::TooFarAhead);
    }
    if h.closed {
        return Err(Refusal::Closed);
    }
    if (time < h.time)
        | (time < OPENING)
        | (closing & (CLOSING < time))
        | (!closing & (CLOSING <= time))
    {
        return Err(Refusal::Untimely);
    }
    Ok(())
}

// ── The fields of a body ──

fn carries_floor(carried: Carried) -> bool
    ensures { result ≡ carries_floor carried }
{
    matches!(carried, Carried::MaxFloor(_))
}

fn carries_minimum(carried: Carried) -> bool
    ensures { result ≡ carries_minimum carried }
{
    matches!(carried, Carried::Minimum(_))
}

// Refusal 8 of an order: its word is lawful, bit 10 is set just where it carries a Max Floor, and no displayed order carries a minimum.
pub fn order_lawful(o: Order) -> bool
    ensures { result ≡ order_lawful o }
{
    let carried = o.carried;
    instructions::lawful(o.word)
        & (instructions::has(o.word, rules::RESERVE) == carries_floor(carried))
        & (!carries_minimum(carried) | !instructions::has(o.word, rules::DISPLAYED))
}

// A Max Floor or a minimum is 1 to the order's shares.
fn carried_in_range(size: Shares, carried: Carried) -> bool
    ensures { result ≡ carried_in_range size carried }
{
    match carried {
        Carried::Nothing => true,
        Carried::MaxFloor(floor) => (1 <= floor.0) & (floor <= size),
        Carried::Minimum(least) => (1 <= least.0) & (least <= size),
    }
}

// Refusal 9 of an order: side, shares, price and what it carries.
pub fn order_in_range(o: Order) -> bool
    ensures { result ≡ order_in_range o }
{
    let market = instructions::has(o.word, rules::MARKET);
    let price = o.price;
    let shares = o.shares;
    let carried = o.carried;
    (o.side <= 1)
        & shares.in_range()
        & ((market & (price.0 == 0)) | (!market & price.in_range()))
        & carried_in_range(shares, carried)
}

// Refusal 9 of a quote: an away price is 0 or in range.
pub fn away_in_range(p: Cents) -> bool
    ensures { result ≡ away_in_range p }
{
    (p.0 == 0) | p.in_range()
}
