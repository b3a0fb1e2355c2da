// A quote on a sound book in place: the orders that would now cross the away prices are moved or cancelled (02, W2), buys first, and the
// away prices are kept in the header.

#![tactic(auto)]

mod moves;

ghost use Rattle.std.specs.Prelude.{◌≡◌, ◌≤◌, length};
ghost use Rattle.rules.specs.Refusals.{least_room};
ghost use Rattle.rules.specs.declared.Body.TheVariants as body;
ghost use Rattle.side.specs.Answers.{body_answer, AreSoundBelow, LeftBy};

use kinds::Number;
use rules::{Away, Held, Refusal};
use side::table::Table;

pub fn quote(
    held: &mut Held,
    number: Number,
    time: u32,
    away: Away,
    buys: &mut Table,
    sells: &mut Table,
    out: &mut [u8],
) -> Result<usize, Refusal>
    requires sides { AreSoundBelow number buys.old sells.old }
    requires room { least_room ≤ length out.old }
    ensures sides { LeftBy number (body.Quote away) buys.old sells.old out.old result buys.new sells.new out.new }
    ensures header { held.new ≡
        (body_answer number time (body.Quote away) (record { held = held.old; buys = buys.old; sells = sells.old })).book.held }
{
    if !(judge::away_in_range(away.bid) & judge::away_in_range(away.offer)) {
        return Err(Refusal::OutOfRange);
    }
    let bought = moves::move_side(buys, true, away, number, settling::FIRST_MOVE, out);
    let len = bought.length;
    let sold = moves::move_side(sells, false, away, number, bought.next, &mut out[len..]);
    *held = Held {
        away,
        ..held.accepted(number, time)
    };
    Ok(len + sold.length)
}
