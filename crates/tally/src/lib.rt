// The tally of one order over a day's event lines (02, W1): the shares executed and cancelled of it, line by line, on pieces of bounded
// size.

#![tactic(auto)]

ghost use Rattle.std.specs.Prelude.{◌≡◌};
ghost use Rattle.demands.specs.Told.{cancelled_by};
ghost use Rattle.digits.specs.Digits.{number_at};
ghost use Rattle.rules.specs.EventLines.{refusal_kind};
ghost use Rattle.rules.specs.EventReading.{is_kind};
ghost use Rattle.tally.specs.Tally.{none_counted, executed_shares, passed_over, or_stopped, added, going_on, turn, fed_on};

use command_lines::lines;
use event_lines::reader;
use kinds::{Number, Shares};
use rules::{Event, NoEvent};
use std::fmt;

// What stops a tally: a line that is no event line, or a sum that four bytes would not hold.
#[derive(Clone, Copy, Debug, PartialEq, Eq)]
pub enum Stop {
    BadLine(NoEvent),
    ExecutedPasses,
    CancelledPasses,
}

impl From<NoEvent> for Stop {
    ghost use Rattle.std.specs.Prelude.{◌≡◌};
    ghost use Rattle.tally.specs.declared.Stop.TheVariants.{BadLine};

    ghost from_gives = { λ why stop. stop ≡ BadLine why };

    fn from(why: NoEvent) -> Stop {
        Stop::BadLine(why)
    }
}

// In the words that the clerk is told.
impl fmt::Display for Stop {
    ghost use Rattle.std.specs.Prelude.{Some};
    ghost use Rattle.tally.specs.Words.{words_of};

    ghost output = { λ stop. Some (words_of stop) };

    fn fmt<W: fmt::Write>(&self, f: &mut fmt::Formatter<W>) -> fmt::Result {
        match self {
            Stop::BadLine(NoEvent::UnknownKind) => f.write_str("unknown kind"),
            Stop::BadLine(NoEvent::Short) => f.write_str("short"),
            Stop::BadLine(NoEvent::TrailingBytes) => f.write_str("trailing bytes"),
            Stop::BadLine(NoEvent::BadDigitOrEnding) => f.write_str("bad digit or ending"),
            Stop::ExecutedPasses => f.write_str("the sum of executed shares passes 4294967295"),
            Stop::CancelledPasses => f.write_str("the sum of cancelled shares passes 4294967295"),
        }
    }
}

// The lines that were counted, the shares executed and cancelled on them, and what stopped it at the line behind these.
#[derive(Clone, Copy)]
pub struct Tally {
    pub lines: u64,
    pub executed: Shares,
    pub cancelled: Shares,
    pub stop: Option<Stop>,
}

// What the whole lines of a piece leave: the tally, and how many bytes they are.
#[derive(Clone, Copy)]
pub struct TalliedPiece {
    pub tally: Tally,
    pub at: usize,
}

// Nothing was counted yet.
pub fn begin() -> Tally
    ensures { result ≡ none_counted }
{
    Tally {
        lines: 0,
        executed: Shares(0),
        cancelled: Shares(0),
        stop: None,
    }
}

// ── One event ──

// The shares of an order that an event executes, in whichever role.
fn executed_shares(number: Number, e: Event) -> u32
    ensures { result ≡ executed_shares number e }
{
    match e {
        Event::Executed {
            incoming,
            resting,
            shares,
            ..
        } => {
            if number == incoming || number == resting {
                shares.0
            } else {
                0
            }
        }
        _ => 0,
    }
}

// The like of a cancel: another case, and one role.
fn cancelled_shares(number: Number, e: Event) -> u32
    ensures { result ≡ cancelled_by number e }
{
    match e {
        Event::Cancelled {
            number: of,
            shares,
            ..
        } => { if number == of { shares.0 } else { 0 } }
        _ => 0,
    }
}

// ── One line ──

// One line more; the largest number of eight bytes stays.
fn pass_over(t: Tally) -> Tally
    ensures { result ≡ passed_over t }
{
    Tally {
        lines: t.lines.saturating_add(1),
        ..t
    }
}

// The two sums with what an event adds, each within the limit.
#[tactic(auto, unfolding(crate::specs::Tally::added))]
fn add(t: Tally, executed: u32, cancelled: u32) -> Result<Tally, Stop>
    ensures { or_stopped t result ≡ added executed cancelled t }
{
    let executed = t
        .executed
        .0
        .checked_add(executed)
        .ok_or(Stop::ExecutedPasses)?;
    let cancelled = t
        .cancelled
        .0
        .checked_add(cancelled)
        .ok_or(Stop::CancelledPasses)?;
    Ok(Tally {
        executed: Shares(executed),
        cancelled: Shares(cancelled),
        ..pass_over(t)
    })
}

// Whether a line begins with `1f`: it is passed over, whatever follows.
fn tells_a_refusal(line: &[u8]) -> bool
    ensures { result ≡ is_kind refusal_kind (number_at 1 0 line.now) }
{
    digits::field_at(line, 0, 1) == Some(0x1f)
}

// A line counted by a tally that goes on, or what stops it there.
#[tactic(auto, unfolding(crate::specs::Tally::going_on))]
fn count(t: Tally, number: Number, line: &[u8]) -> Result<Tally, Stop>
    ensures { or_stopped t result ≡ going_on number t line.now }
{
    if tells_a_refusal(line) {
        return Ok(pass_over(t));
    }
    let e = reader::read_event(line)?;
    add(t, executed_shares(number, e), cancelled_shares(number, e))
}

// One line, of any bytes; a tally that has stopped stays.
#[tactic(auto, unfolding(crate::specs::Tally::turn))]
pub fn take_line(t: Tally, number: Number, line: &[u8]) -> Tally
    ensures { result ≡ turn number t line.now }
{
    if t.stop.is_some() {
        return t;
    }
    match count(t, number, line) {
        Ok(counted) => counted,
        Err(stop) => Tally {
            stop: Some(stop),
            ..t
        },
    }
}

// ── A piece ──

// The whole lines of a piece, of any bytes, one after the other. The loop keeps its place, since how far it came is a part of the answer.
pub fn feed(t: Tally, number: Number, input: &[u8]) -> TalliedPiece
    ensures { result ≡ fed_on number t input.now }
{
    let mut tally = t;
    let mut at = 0;
    loop {
        let rest = &input[at..];
        let end = lines::scan_line(rest);
        if rest.len() <= end {
            break;
        }
        tally = take_line(tally, number, &rest[0..end + 1]);
        at += end + 1;
    }
    TalliedPiece { tally, at }
}
