// Event lines of a side, one after the other into the rest of the output: of the takings of a walk, and of orders that are cancelled.
ghost use Rattle.std.specs.Prelude.{map, ◌≡◌, ◌*◌, ◌≤◌, ◌<◌, length};
ghost use Rattle.basics.specs.Bytes.{onto};
ghost use Rattle.basics.specs.Lists.{All};
ghost use Rattle.kinds.specs.Kinds.{largest};
ghost use Rattle.side.specs.Shifts.{Countable};
ghost use Rattle.rules.specs.EventLines.{event_lines};
ghost use Rattle.orders.specs.Walk.{is_below};
ghost use Rattle.orders.specs.Locks.{executes_at};
ghost use Rattle.orders.specs.Reports.{execution_of, cancelled_for};

use crate::pricing;
use crate::takings::Takings;
use event_lines::writer;
use kinds::{HalfCents, Number};
use side::rows;
use side::table::Table;

// Line 11 for each taking, in the order of the walk, at the price of its execution; the length of the lines. The side is still as the walk
// found it.
pub(crate) fn report(
    t: &Table,
    took: &Takings,
    number: Number,
    buying: bool,
    locked: HalfCents,
    out: &mut [u8],
) -> usize
    requires below { All (is_below (length t.now)) took.now }
    requires room { 35 * length took.now ≤ length out.old }
    requires locks { locked.0 < largest }
    ensures value { result ≡ 35 * length took.now }
    ensures out_after { out.new ≡ onto (event_lines (map (execution_of number (executes_at buying locked) t.now) took.now)) out.old }
{
    let mut len = 0;
    for taking in took.as_slice() {
        let resting = t.at(taking.place);
        let price = pricing::execution_price(buying, locked, taking.price);
        len += writer::write_executed(
            &mut out[len..],
            number,
            resting.number,
            price,
            taking.shares,
        );
    }
    len
}

// Line 13 for each order of the side, in rank order; the length of the lines.
pub fn report_cancelled(t: &Table, reason: u8, out: &mut [u8]) -> usize
    requires room { 21 * length t.now ≤ length out.old }
    requires countable { All Countable t.now }
    ensures value { result ≡ 21 * length t.now }
    ensures out_after { out.new ≡ onto (event_lines (map (cancelled_for reason) t.now)) out.old }
{
    let mut len = 0;
    for rank in 0..t.len() {
        let o = t.at(rank);
        let left = rows::shares_left(o);
        len += writer::write_cancelled(&mut out[len..], o.number, left, reason);
    }
    len
}
