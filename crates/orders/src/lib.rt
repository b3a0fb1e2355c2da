// An order on a sound book in place (01, How an order is worked): it is judged by its own fields and then matched, on whichever side of the
// market it is of.

#![tactic(auto)]

pub mod cursor;
mod fills;
mod matching;
pub mod pricing;
mod refills;
pub mod reports;
pub mod takings;
pub mod walk;
mod work;

ghost use Rattle.std.specs.Prelude.{ℕ, true, ◌≡◌, ◌≤◌, ◌<◌, length};
ghost use Rattle.rules.specs.Book.{sound};
ghost use Rattle.rules.specs.Refusals.{least_room};
ghost use Rattle.rules.specs.declared.Body.TheVariants as body;
ghost use Rattle.side.specs.Answers.{body_answer, Left};

use crate::takings::Takings;
use kinds::Number;
use rules::{Held, Order, Refusal};
use side::table::Table;

// What an order does to the two sides, whatever the time is: the header, of which it reads the away prices, is not written here.
fn judge_and_match(
    held: &Held,
    number: Number,
    o: Order,
    buys: &mut Table,
    sells: &mut Table,
    took: &mut Takings,
    out: &mut [u8],
) -> Result<usize, Refusal>
    requires is_sound { sound (record { held = held.now; buys = buys.old; sells = sells.old }) ≡ true }
    requires room { least_room ≤ length out.old }
    requires next { held.now.last.0 < number.0 }
    ensures { (time : ℕ) → Left result buys.new sells.new out.new out.old
        (body_answer number time (body.Order o) (record { held = held.now; buys = buys.old; sells = sells.old })) }
{
    if !judge::order_lawful(o) {
        return Err(Refusal::UnlawfulWord);
    }
    if !judge::order_in_range(o) {
        return Err(Refusal::OutOfRange);
    }
    if o.is_buy() {
        matching::match_order(o, number, held.away, buys, sells, took, out)
    } else {
        matching::match_order(o, number, held.away, sells, buys, took, out)
    }
}

// The header is written last, once nothing is refused any more.
pub fn enter(
    held: &mut Held,
    number: Number,
    time: u32,
    o: Order,
    buys: &mut Table,
    sells: &mut Table,
    took: &mut Takings,
    out: &mut [u8],
) -> Result<usize, Refusal>
    requires is_sound { sound (record { held = held.old; buys = buys.old; sells = sells.old }) ≡ true }
    requires room { least_room ≤ length out.old }
    requires next { held.old.last.0 < number.0 }
    ensures sides { (any_time : ℕ) → Left result buys.new sells.new out.new out.old
        (body_answer number any_time (body.Order o) (record { held = held.old; buys = buys.old; sells = sells.old })) }
    ensures header { held.new ≡
        (body_answer number time (body.Order o) (record { held = held.old; buys = buys.old; sells = sells.old })).book.held }
{
    let length = judge_and_match(held, number, o, buys, sells, took, out)?;
    *held = held.accepted(number, time);
    Ok(length)
}
