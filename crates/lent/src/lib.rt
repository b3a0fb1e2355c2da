// One side as a lent slice of resting-order records (01, The book: "one side as a lent table of resting-order records"), a thin layer
// over the book by value: the table is put into the book, the book answers, and what it leaves is taken apart again.

#![tactic(auto)]

ghost use Rattle.std.specs.Prelude.{false, ◌≡◌, length};
ghost use Rattle.basics.specs.Lists.{first_where};
ghost use Rattle.book.specs.Record.{record_in, book_with, reply_of, Leaves};
ghost use Rattle.rules.specs.Book.{is_unused};
ghost use Rattle.rules.specs.Refusals.{first_of, fit_refusals};
ghost use Rattle.rules.specs.Refusing.{or_refused};
ghost use Rattle.rules.specs.Step.{step};
ghost use Rattle.side.specs.Sides.{places_on, side_with};
ghost use Rattle.lent.specs.Lent.{places_lent, no_places, is_empty, is_counted, side_of, with_places, lent_step, LeftOf, Answered};

use book::{Book, NO_ORDERS, Reply, Side};
use rules::{Refusal, Resting};
use side::rows;
use side::rows::PLACES;

// ── A side of the book ──
// Within, a book is changed in place: for the stack's sake none of its 18 KB are copied but what the whole book's answer takes and gives.

fn side_of(book: &Book, buys: bool) -> &Side
    ensures { result.now ≡ side_with (side_of buys (record_in book.now)) }
{
    if buys { &book.buys } else { &book.sells }
}

fn set_side(book: &mut Book, buys: bool, side: Side)
    ensures { book.new ≡ book_with (with_places buys (places_on side) (record_in book.old)) }
{
    if buys {
        book.buys = side;
    } else {
        book.sells = side;
    }
}

// How many leading records are used: the place of the first that is all zero.
fn used_in(places: &[Resting; PLACES]) -> usize
    ensures { result ≡ first_where is_unused places.now }
{
    places
        .iter()
        .position(|o| rows::is_unused(*o))
        .unwrap_or(PLACES)
}

// Whether a side has no order and each of its places is unused.
fn is_empty(side: &Side) -> bool
    ensures { result ≡ is_empty (places_on side.now) }
{
    (side.used == 0) & side.places.iter().all(|o| rows::is_unused(*o))
}

// Whether the side's count is that of its leading records.
fn is_counted(side: &Side) -> bool
    ensures { result ≡ is_counted (places_on side.now) }
{
    side.used == used_in(&side.places)
}

// The records are put into the book as its side.
fn put_in(book: &mut Book, buys: bool, places: [Resting; PLACES])
    ensures { book.new ≡ book_with (with_places buys (places_lent places) (record_in book.old)) }
{
    let used = used_in(&places);
    set_side(book, buys, Side { used, places });
}

// The records of a side; it is taken out of the book.
fn take_out(book: &mut Book, buys: bool) -> [Resting; PLACES]
    ensures value { result ≡ (side_of buys (record_in book.old)).places }
    ensures book_after { book.new ≡ book_with (with_places buys no_places (record_in book.old)) }
{
    let places = side_of(book, buys).places;
    set_side(book, buys, NO_ORDERS);
    places
}

// Refusal 1, or else 2: the table does not fit, that side of the book is not empty, or its count is not that of its records.
#[tactic(auto, unfolding(rules::specs::Refusals::first_of))]
fn refused(room: usize) -> Result<usize, Refusal>
    ensures { result ≡ or_refused 0 (first_of (fit_refusals room false)) }
{
    if room < rules::LEAST_ROOM {
        Err(Refusal::NoRoom)
    } else {
        Err(Refusal::UnsoundBook)
    }
}

// A line to a book of which one side is lent. A refusal hands back the whole book, so what is taken out of it is then the table as it came.
fn work(
    book: &mut Book,
    buys: bool,
    table: &mut [Resting],
    line: &[u8],
    out: &mut [u8],
) -> Result<usize, Refusal>
    ensures { LeftOf (lent_step buys (record_in book.old) table.old line.now out.old) book.new result table.new out.new }
{
    let Ok(places) = <[Resting; PLACES]>::try_from(&*table) else {
        return refused(out.len());
    };
    let empty = is_empty(side_of(book, buys));
    if !empty {
        return refused(out.len());
    }
    put_in(book, buys, places);
    let reply = book.answer(line, out);
    *book = reply.book;
    let left = take_out(book, buys);
    table.copy_from_slice(&left);
    reply.answer
}

// A line to a book of which one side is taken out and lent, and put in again.
fn lend(book: &mut Book, buys: bool, line: &[u8], out: &mut [u8]) -> Result<usize, Refusal>
    ensures { Leaves book.new result out.new (step (record_in book.old) line.now out.old) }
{
    let counted = is_counted(side_of(book, buys));
    if !counted {
        return refused(out.len());
    }
    let mut table = take_out(book, buys);
    let answer = work(book, buys, &mut table, line, out);
    put_in(book, buys, table);
    answer
}

// ── The entry ──

// A line to a book of which one side is lent as a slice of records: its buys, or else its sells.
pub fn answer(
    mut book: Book,
    buys: bool,
    table: &mut [Resting],
    line: &[u8],
    out: &mut [u8],
) -> Reply
    ensures { Answered buys (record_in book) table.old line.now out.old result table.new
        out.new }
{
    let answer = work(&mut book, buys, table, line, out);
    Reply { answer, book }
}

// A line to a whole book by way of the table. It answers as the book itself does; a side whose count is not that of its leading records is not
// sound.
pub fn answer_lending(mut book: Book, buys: bool, line: &[u8], out: &mut [u8]) -> Reply
    ensures value { result ≡ reply_of (step (record_in book) line.now out.old) }
    ensures out_after { out.new ≡ (step (record_in book) line.now out.old).out }
{
    let answer = lend(&mut book, buys, line, out);
    Reply { answer, book }
}
