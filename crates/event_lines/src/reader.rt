// The reader of our own event lines, kinds 11 to 14, over any bytes (02, W1 and W2). Refusals are tried in this order: unknown kind, short
// (also below two bytes), trailing bytes, bad digit or ending.
ghost use Rattle.std.specs.Prelude.{◌≡◌, ◌≤◌, ◌<◌};
ghost use Rattle.digits.specs.Digits.{number_at};
ghost use Rattle.rules.specs.EventLines.{executed_fields, rested_fields, cancelled_fields, moved_fields};
ghost use Rattle.rules.specs.EventReading.{executed_of, rested_of, cancelled_of, moved_of, event_of, event_in};
ghost use Rattle.event_lines.specs.Ended.{ended, digits_or_bad, at_price};
ghost use Rattle.event_lines.specs.Forms.{event_of_kind};

use crate::forms::Kind;
use kinds::{HalfCents, Number, Shares};
use rules::{Event, NoEvent};

// ── The fields behind a kind ──

fn field(s: &[u8], at: usize, w: usize) -> Result<u32, NoEvent>
    requires { (at < 64) × (1 ≤ w) × (w ≤ 4) }
    ensures { result ≡ digits_or_bad (number_at w at s.now) }
{
    digits::field_at(s, at, w).ok_or(NoEvent::BadDigitOrEnding)
}

#[tactic(auto, unfolding(rules::specs::CommandLines::numbers_from))]
fn read_executed(s: &[u8]) -> Result<Event, NoEvent>
    ensures { result ≡ event_of executed_fields executed_of s.now }
{
    let incoming = field(s, 2, 4)?;
    let resting = field(s, 10, 4)?;
    let price = field(s, 18, 4)?;
    let shares = field(s, 26, 4)?;
    Ok(Event::Executed {
        incoming: Number(incoming),
        resting: Number(resting),
        price: HalfCents(price),
        shares: Shares(shares),
    })
}

// Kinds 12 and 14 have the same fields: an order at a price.
#[tactic(auto, unfolding(rules::specs::CommandLines::numbers_from))]
fn read_at_price(s: &[u8]) -> Result<(Number, HalfCents, Shares), NoEvent>
    ensures { result ≡ at_price s.now }
{
    let number = field(s, 2, 4)?;
    let price = field(s, 10, 4)?;
    let shares = field(s, 18, 4)?;
    Ok((Number(number), HalfCents(price), Shares(shares)))
}

fn read_rested(s: &[u8]) -> Result<Event, NoEvent>
    ensures { result ≡ event_of rested_fields rested_of s.now }
{
    let (number, price, shares) = read_at_price(s)?;
    Ok(Event::Rested {
        number,
        price,
        shares,
    })
}

fn read_moved(s: &[u8]) -> Result<Event, NoEvent>
    ensures { result ≡ event_of moved_fields moved_of s.now }
{
    let (number, price, shares) = read_at_price(s)?;
    Ok(Event::Moved {
        number,
        price,
        shares,
    })
}

// The cast loses nothing of two digits.
#[tactic(auto, unfolding(rules::specs::CommandLines::numbers_from))]
fn read_cancelled(s: &[u8]) -> Result<Event, NoEvent>
    ensures { result ≡ event_of cancelled_fields cancelled_of s.now }
{
    let number = field(s, 2, 4)?;
    let shares = field(s, 10, 4)?;
    let reason = field(s, 18, 1)?;
    Ok(Event::Cancelled {
        number: Number(number),
        shares: Shares(shares),
        reason: reason as u8,
    })
}

// The fields behind a kind: each has its own.
fn read_fields(kind: Kind, s: &[u8]) -> Result<Event, NoEvent>
    ensures { result ≡ event_of_kind kind s.now }
{
    match kind {
        Kind::Executed => read_executed(s),
        Kind::Rested => read_rested(s),
        Kind::Cancelled => read_cancelled(s),
        Kind::Moved => read_moved(s),
    }
}

// ── A line ──

// That a line has its size and its line feed.
#[tactic(auto, unfolding(crate::specs::Ended::ended))]
fn ended(s: &[u8], size: usize) -> Result<(), NoEvent>
    requires { 1 ≤ size }
    ensures { result ≡ ended size s.now }
{
    if s.len() < size {
        return Err(NoEvent::Short);
    }
    if size < s.len() {
        return Err(NoEvent::TrailingBytes);
    }
    if s[size - 1] != b'\n' {
        return Err(NoEvent::BadDigitOrEnding);
    }
    Ok(())
}

// The event that a line is, or why it is none.
pub fn read_event(s: &[u8]) -> Result<Event, NoEvent>
    ensures { result ≡ event_in s.now }
{
    if s.len() < 2 {
        return Err(NoEvent::Short);
    }
    let number = digits::field_at(s, 0, 1).ok_or(NoEvent::UnknownKind)?;
    let kind = Kind::numbered(number).ok_or(NoEvent::UnknownKind)?;
    ended(s, kind.length())?;
    read_fields(kind, s)
}
