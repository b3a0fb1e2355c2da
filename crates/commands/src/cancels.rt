// A cancel on two sides of a sound book: the order of a number is searched among the buys, and then among the sells.
ghost use Rattle.std.specs.Prelude.{true, ◌≡◌, ◌≤◌, ◌<◌, ◌++◌, ℕ, length};
ghost use Rattle.basics.specs.Bytes.{onto};
ghost use Rattle.basics.specs.Lists.{distinct, remove_at, All};
ghost use Rattle.side.specs.Shifts.{Countable};
ghost use Rattle.rules.specs.Book.{numbers};
ghost use Rattle.rules.specs.EventLines.{event_line};
ghost use Rattle.rules.specs.Refusals.{least_room};
ghost use Rattle.commands.specs.Cancels.{where_is, off_line};
ghost use Rattle.commands.specs.Sides.{AreSound, Cancels};

use event_lines::writer;
use kinds::Number;
use rules::{Reason, Refusal};
use side::rows;
use side::table::Table;

// Where the order of a number rests: the side, and its rank there.
#[derive(Clone, Copy)]
pub enum Found {
    AmongBuys(usize),
    AmongSells(usize),
}

// The order of a number, where it is searched.
fn search(buys: &Table, sells: &Table, of: Number) -> Option<Found>
    ensures { result ≡ where_is of buys.now sells.now }
{
    if let Some(rank) = buys.find(of) {
        return Some(Found::AmongBuys(rank));
    }
    if let Some(rank) = sells.find(of) {
        return Some(Found::AmongSells(rank));
    }
    None
}

// The order of a number: where its hints lead, or else where a search finds it.
fn seek(buys: &Table, sells: &Table, of: Number) -> Option<Found>
    requires { distinct (numbers (buys.now ++ sells.now)) ≡ true }
    ensures { result ≡ where_is of buys.now sells.now }
{
    if let Some(rank) = buys.follow_hint(of) {
        return Some(Found::AmongBuys(rank));
    }
    if let Some(rank) = sells.follow_hint(of) {
        return Some(Found::AmongSells(rank));
    }
    search(buys, sells, of)
}

// Takes the order at a rank off its side and writes its line; the length of the line.
fn take_off(t: &mut Table, rank: usize, out: &mut [u8]) -> usize
    requires there { rank < length t.old }
    requires room { least_room ≤ length out.old }
    requires countable { All Countable t.old }
    ensures value { result ≡ length (event_line (off_line rank t.old)) }
    ensures side_after { t.new ≡ remove_at rank t.old }
    ensures out_after { out.new ≡ onto (event_line (off_line rank t.old)) out.old }
{
    let o = t.at(rank);
    let left = rows::shares_left(o);
    t.remove(rank);
    writer::write_cancelled(out, o.number, left, u8::from(Reason::ByCommand))
}

pub(crate) fn cancel(
    buys: &mut Table,
    sells: &mut Table,
    of: Number,
    out: &mut [u8],
) -> Result<usize, Refusal>
    requires sides { AreSound buys.old sells.old }
    requires room { least_room ≤ length out.old }
    ensures { Cancels of buys.old sells.old out.old result buys.new sells.new out.new }
{
    match seek(buys, sells, of) {
        Some(Found::AmongBuys(rank)) => Ok(take_off(buys, rank, out)),
        Some(Found::AmongSells(rank)) => Ok(take_off(sells, rank, out)),
        None => Err(Refusal::NotResting),
    }
}
