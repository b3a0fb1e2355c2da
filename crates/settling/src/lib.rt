// Resting orders of one side that are settled other than by executions, in place, one after the other: each stays, is cancelled, or is set
// anew and takes its place again (rules/specs/Settling). One function for both sides of the market, and for whatever settles them.

#![tactic(auto)]

ghost use Rattle.std.specs.Prelude.{true, ◌≡◌, ◌+◌, ◌≤◌, ◌<◌, length};
ghost use Rattle.basics.specs.Bytes.{onto_from};
ghost use Rattle.basics.specs.Lists.{remove_at, All};
ghost use Rattle.kinds.specs.Kinds.{largest};
ghost use Rattle.rules.specs.Book.{stamp, in_rank_order};
ghost use Rattle.rules.specs.EventLines.{event_lines};
ghost use Rattle.rules.specs.Settling.{stamped_as, told_by};
ghost use Rattle.side.specs.Looking.{Older};
ghost use Rattle.side.specs.Shifts.{Countable};

use event_lines::writer;
use kinds::Number;
use rules::{Fate, Resting, Stamp};
use side::rows;
use side::table::Table;

// The place of the first move among a command's moves; 0 is that of an order that comes to rest.
pub const FIRST_MOVE: u32 = 1;

// How far a command has come in settling one side: the command's number and the side of the market, the next place among the command's
// moves, and the length of the lines.
#[derive(Clone, Copy)]
pub struct Settling {
    pub number: Number,
    pub buying: bool,
    pub next: u32,
    pub length: usize,
}

// An order with a new stamp.
fn stamped_as(o: Resting, anew: Stamp) -> Resting
    ensures { result ≡ stamped_as anew o }
{
    Resting { stamp: anew, ..o }
}

impl Settling {
    ghost use Rattle.settling.specs.OneByOne.{settled_at, after_one, set_below};

    // The order at a rank is taken off its side, and its line is written behind the others; where it is set anew it takes its place again,
    // with the next of the command's stamps.
    pub fn settle(
        self,
        t: &mut Table,
        at: usize,
        o: Resting,
        fate: Fate,
        out: &mut [u8],
    ) -> Settling
        requires there { at < length t.old }
        requires ranked { in_rank_order self.buying (remove_at at t.old) ≡ true }
        requires older { All (Older (stamp self.number self.next)) (remove_at at t.old) }
        requires places { self.next < largest }
        requires room { self.length + length (event_lines (told_by fate o)) ≤ length out.old }
        requires countable { Countable o }
        requires priced { set_below fate }
        ensures value { result ≡ after_one self fate o }
        ensures side_after { t.new ≡ settled_at self.number self.next self.buying fate at t.old }
        ensures out_after { out.new ≡ onto_from self.length (event_lines (told_by fate o)) out.old }
    {
        match fate {
            Fate::Stays => self,
            Fate::IsCancelled(reason) => {
                t.remove(at);
                let left = rows::shares_left(o);
                let more = writer::write_cancelled(&mut out[self.length..], o.number, left, reason);
                Settling {
                    length: self.length + more,
                    ..self
                }
            }
            Fate::IsSet(new) => {
                t.remove(at);
                let anew = Stamp {
                    command: self.number,
                    place: self.next,
                };
                t.rest(self.buying, stamped_as(new, anew));
                let more = writer::write_moved(
                    &mut out[self.length..],
                    new.number,
                    new.price,
                    new.shares,
                );
                Settling {
                    next: self.next + 1,
                    length: self.length + more,
                    ..self
                }
            }
        }
    }
}
