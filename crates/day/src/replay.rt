// A day's lines through the book, a piece of input at a time (01, Examples from the desk: the program). The book stands in place from the
// first line to the last: nothing of it is copied or tested between two lines.
ghost use Rattle.std.specs.Prelude.{◌≡◌, ◌≤◌, length};
ghost use Rattle.rules.specs.Book.{fresh};
ghost use Rattle.rules.specs.Refusals.{least_room};
ghost use Rattle.day.specs.Feed.{Prints, Feeds};

use command_lines::lines;
use event_lines::writer;
use kinds::{Cents, Number};
use orders::takings::Takings;
use rules::{Away, Command, Held, Refusal};
use side::table::Table;
use side::tables::SoundBook;

// What some lines leave: how many bytes of input they are, and the length of what is printed of them.
#[derive(Clone, Copy)]
pub struct Fed {
    pub at: usize,
    pub length: usize,
}

// The header of a fresh book. `book::Book::fresh` has the same, by value: one for both would be a constant of its own, and no plainer.
fn fresh_held() -> Held
    ensures { result ≡ fresh.held }
{
    let away = Away {
        bid: Cents(0),
        offer: Cents(0),
    };
    Held {
        last: Number(0),
        time: judge::OPENING,
        away,
        closed: false,
    }
}

// A fresh book. Not put into its callers: what it puts together, a side at a time, would stay on their stack.
#[inline(never)]
pub fn begin() -> SoundBook
    ensures { result ≡ fresh }
{
    SoundBook {
        held: fresh_held(),
        buys: Table::empty(),
        sells: Table::empty(),
    }
}

// The same of a book that is there, whatever it holds: for whoever works one day after another. No row of a side is written, and nothing of
// the book is moved, while `begin` writes all of a book and hands it over by value.
pub fn begin_again(book: &mut SoundBook)
    ensures { book.new ≡ fresh }
{
    let held = fresh_held();
    book.held = held;
    book.buys.clear();
    book.sells.clear();
}

// ── A line ──

// What is printed of a line that reads so: its event lines, or the line of its refusal; how many bytes these are.
fn print_line(
    book: &mut SoundBook,
    reading: Option<Command>,
    took: &mut Takings,
    out: &mut [u8],
) -> usize
    requires { least_room ≤ length out.old }
    ensures { Prints book.old reading out.old result book.new out.new }
{
    let Some(c) = reading else {
        return writer::write_refusal(out, u8::from(Refusal::NoCommand));
    };
    match commands::apply(book, c, took, out) {
        Ok(length) => length,
        Err(refusal) => writer::write_refusal(out, u8::from(refusal)),
    }
}

// ── A piece of input ──

// Works the whole lines of an input, until none is left or the output has no room for another. The loop keeps its place, since how far it
// came is a part of the answer.
pub fn feed(book: &mut SoundBook, input: &[u8], took: &mut Takings, out: &mut [u8]) -> Fed
    ensures { Feeds book.old input.now out.old result book.new out.new }
{
    let mut at = 0;
    let mut length = 0;
    loop {
        if out.len() - length < rules::LEAST_ROOM {
            break;
        }
        let line = lines::first_line(&input[at..]);
        if input.len() - at <= line.digits {
            break;
        }
        let printed = print_line(book, line.reading, took, &mut out[length..]);
        length += printed;
        at += line.digits + 1;
    }
    Fed { at, length }
}
