// A command on a sound book in place, worked there (01, How an order is worked). It is judged by its header first and then by its body; a
// refusal leaves the book and every byte as they were.

#![tactic(auto)]

mod cancels;

ghost use Rattle.std.specs.Prelude.{true, ◌≡◌, ◌≤◌, ◌<◌, length};
ghost use Rattle.basics.specs.Bytes.{onto};
ghost use Rattle.rules.specs.Book.{sound};
ghost use Rattle.rules.specs.EventLines.{event_lines};
ghost use Rattle.rules.specs.Refusals.{least_room};
ghost use Rattle.rules.specs.Refusing.{or_refused};
ghost use Rattle.side.specs.Answers.{answer_of, body_answer, Left};
ghost use Rattle.commands.specs.Sides.{AreSound, Closes};

use orders::reports;
use orders::takings::Takings;
use rules::{Body, Command, Held, Reason, Refusal};
use side::table::Table;
use side::tables::SoundBook;

// ── A close ──

// Every order is cancelled; the length of the lines.
fn close(buys: &mut Table, sells: &mut Table, out: &mut [u8]) -> usize
    requires sides { AreSound buys.old sells.old }
    requires room { least_room ≤ length out.old }
    ensures { Closes buys.old sells.old out.old result buys.new sells.new out.new }
{
    let reason = u8::from(Reason::AtClose);
    let length = reports::report_cancelled(buys, reason, out);
    let more = reports::report_cancelled(sells, reason, &mut out[length..]);
    buys.clear();
    sells.clear();
    length + more
}

// ── A command ──

// What the body of a command leaves of the header and the two sides, and the length of its lines. They are lent apart: while it works they
// are no sound book together.
fn carry_out(
    held: &mut Held,
    c: Command,
    buys: &mut Table,
    sells: &mut Table,
    took: &mut Takings,
    out: &mut [u8],
) -> Result<usize, Refusal>
    requires is_sound { sound (record { held = held.old; buys = buys.old; sells = sells.old }) ≡ true }
    requires room { least_room ≤ length out.old }
    requires next { held.old.last.0 < c.number.0 }
    ensures sides { Left result buys.new sells.new out.new out.old
        (body_answer c.number c.time c.body (record { held = held.old; buys = buys.old; sells = sells.old })) }
    ensures header { held.new ≡
        (body_answer c.number c.time c.body (record { held = held.old; buys = buys.old; sells = sells.old })).book.held }
{
    let Command { number, time, body } = c;
    match body {
        Body::Order(o) => orders::enter(held, number, time, o, buys, sells, took, out),
        Body::Cancel(of) => {
            let length = cancels::cancel(buys, sells, of, out)?;
            *held = held.accepted(number, time);
            Ok(length)
        }
        Body::Quote(away) => quotes::quote(held, number, time, away, buys, sells, out),
        Body::Close => {
            let length = close(buys, sells, out);
            *held = Held {
                closed: true,
                ..held.accepted(number, time)
            };
            Ok(length)
        }
    }
}

pub fn apply(
    book: &mut SoundBook,
    c: Command,
    took: &mut Takings,
    out: &mut [u8],
) -> Result<usize, Refusal>
    requires { least_room ≤ length out.old }
    ensures value { result ≡ or_refused (length (event_lines (answer_of c book.old).events)) (answer_of c book.old).refusal }
    ensures book_after { book.new ≡ (answer_of c book.old).book }
    ensures out_after { out.new ≡ onto (event_lines (answer_of c book.old).events) out.old }
{
    judge::header(book.held, c)?;
    carry_out(
        &mut book.held,
        c,
        &mut book.buys,
        &mut book.sells,
        took,
        out,
    )
}
