// The reader of command lines, over any bytes (01, Command lines): a line is the header's 18 digits and then the body's, which
// are read as a part of their own.
ghost use Rattle.std.specs.Prelude.{◌≡◌, ◌<◌, Some};
ghost use Rattle.rules.specs.CommandLines.{cancel_form, quote_form, close_form, cancel_made, quote_made, close_made};
ghost use Rattle.rules.specs.CommandLines.{is_ended, body_of_form, command_in};
ghost use Rattle.command_lines.specs.Reading.{last_in, carried_in, order_carrying, body_of_kind};

use crate::forms::Kind;
use kinds::{Cents, Number, Shares};
use rules::{Away, Body, Carried, Command, Order};

// Whether `n` digits are followed by one line feed, and by no more.
fn is_ended(s: &[u8], n: usize) -> bool
    requires { n < 64 }
    ensures { result ≡ is_ended n s.now }
{
    s.len() == n + 1 && s[n] == b'\n'
}

// The number that stands after the shares, as an order's last: its Max Floor (02, W4) or its minimum (02, W7), in lines of one form.
#[tactic(auto, unfolding(crate::specs::Reading::last_in))]
fn read_last(s: &[u8]) -> Option<Shares>
    ensures { result ≡ last_in s.now }
{
    if !is_ended(s, rules::RESERVE_BODY) {
        return None;
    }
    Some(Shares(digits::field_at(s, 22, 4)?))
}

// What an order of a kind carries behind the fields that every order has. None where the line does not end there, and for a kind of no order.
fn read_carried(kind: Kind, s: &[u8]) -> Option<Carried>
    ensures { result ≡ carried_in kind s.now }
{
    match kind {
        Kind::Order => is_ended(s, rules::ORDER_BODY).then_some(Carried::Nothing),
        Kind::Reserve => Some(Carried::MaxFloor(read_last(s)?)),
        Kind::Minimum => Some(Carried::Minimum(read_last(s)?)),
        _ => None,
    }
}

// An order, of whichever kind: one function for all, so that it is compiled where it is called. The casts lose nothing of what was read,
// two and four digits; `try_from` would bring a refusal that cannot come.
#[tactic(auto, unfolding(crate::specs::Reading::order_carrying, rules::specs::CommandLines::numbers_from))]
fn read_order(carried: Carried, s: &[u8]) -> Option<Body>
    ensures { result ≡ order_carrying carried s.now }
{
    let side = digits::field_at(s, 0, 1)?;
    let word = digits::field_at(s, 2, 2)?;
    let price = digits::field_at(s, 6, 4)?;
    let shares = digits::field_at(s, 14, 4)?;
    Some(Body::Order(Order {
        side: side as u8,
        word: word as u16,
        price: Cents(price),
        shares: Shares(shares),
        carried,
    }))
}

#[tactic(auto, unfolding(rules::specs::CommandLines::body_of_form, rules::specs::CommandLines::numbers_from))]
fn read_cancel(s: &[u8]) -> Option<Body>
    ensures { result ≡ body_of_form cancel_form cancel_made s.now }
{
    if !is_ended(s, rules::CANCEL_BODY) {
        return None;
    }
    Some(Body::Cancel(Number(digits::field_at(s, 0, 4)?)))
}

#[tactic(auto, unfolding(rules::specs::CommandLines::body_of_form, rules::specs::CommandLines::numbers_from))]
fn read_quote(s: &[u8]) -> Option<Body>
    ensures { result ≡ body_of_form quote_form quote_made s.now }
{
    if !is_ended(s, rules::QUOTE_BODY) {
        return None;
    }
    let bid = digits::field_at(s, 0, 4)?;
    let offer = digits::field_at(s, 8, 4)?;
    Some(Body::Quote(Away {
        bid: Cents(bid),
        offer: Cents(offer),
    }))
}

#[tactic(auto, unfolding(rules::specs::CommandLines::body_of_form, rules::specs::CommandLines::numbers_from))]
fn read_close(s: &[u8]) -> Option<Body>
    ensures { result ≡ body_of_form close_form close_made s.now }
{
    is_ended(s, rules::CLOSE_BODY).then_some(Body::Close)
}

// The digits after the header, by kind: each has fields of its own.
fn read_body(kind: Kind, s: &[u8]) -> Option<Body>
    ensures { result ≡ body_of_kind kind s.now }
{
    match kind {
        Kind::Cancel => read_cancel(s),
        Kind::Quote => read_quote(s),
        Kind::Close => read_close(s),
        Kind::Order | Kind::Reserve | Kind::Minimum => read_order(read_carried(kind, s)?, s),
    }
}

// The command that a line is, or that it is not one of the forms. The line from digit 18 on is handed to the body's reader.
pub fn read_command(s: &[u8]) -> Option<Command>
    ensures { result ≡ command_in s.now }
{
    if s.len() < rules::HEADER {
        return None;
    }
    let kind = digits::field_at(s, 0, 1)?;
    let number = digits::field_at(s, 2, 4)?;
    let time = digits::field_at(s, 10, 4)?;
    let body = read_body(Kind::numbered(kind)?, &s[rules::HEADER..])?;
    Some(Command {
        number: Number(number),
        time,
        body,
    })
}
