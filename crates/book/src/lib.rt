// The book, handed in by value and handed back (01, The book): fresh, sound, and what it responds to a reading, whatever the book and
// the output.

#![tactic(auto)]

ghost use Rattle.std.specs.Prelude.{true, ◌≡◌, ◌≤◌, length};
ghost use Rattle.rules.specs.Book.{fresh, record_of, record_sound};
ghost use Rattle.rules.specs.Refusals.{least_room};
ghost use Rattle.rules.specs.Step.{step, step_on};
ghost use Rattle.rules.specs.declared.Body.TheVariants as body;
ghost use Rattle.book.specs.Record.{record_in, book_with, reply_of, Leaves};

use command_lines::reader;
use kinds::{Cents, Number};
use orders::takings::Takings;
use rules::{Away, Body, Command, Held, Order, Refusal};
use side::table::Table;
use side::tables::SoundBook;
pub use side::tables::{NO_ORDERS, Side};

#[derive(Clone, Copy, PartialEq, Eq)]
pub struct Book {
    pub held: Held,
    pub buys: Side,
    pub sells: Side,
}

// What the book says back: the length of the event lines, or the refusal; and the book.
#[derive(Clone, Copy, PartialEq, Eq)]
pub struct Reply {
    pub answer: Result<usize, Refusal>,
    pub book: Book,
}

// A sound book in place, saved.
impl From<&SoundBook> for Book {
    ghost use Rattle.std.specs.Prelude.{◌≡◌};
    ghost use Rattle.rules.specs.Book.{record_of};
    ghost use Rattle.book.specs.Record.{book_with};

    ghost from_gives = { λ book saved. saved ≡ book_with (record_of book.now) };

    #[tactic(auto, unfolding(rules::specs::Book::record_of, rules::specs::Book::places_of))]
    fn from(book: &SoundBook) -> Book {
        Book {
            held: book.held,
            buys: Side {
                used: book.buys.len(),
                places: book.buys.save(),
            },
            sells: Side {
                used: book.sells.len(),
                places: book.sells.save(),
            },
        }
    }
}

fn command(number: Number, time: u32, body: Body) -> Option<Command>
    ensures { result ≡ Some (record { number = number; time = time; body = body }) }
{
    Some(Command { number, time, body })
}

impl Book {
    #[tactic(auto, unfolding(rules::specs::Book::record_of, rules::specs::Book::places_of))]
    pub fn fresh() -> Book
        ensures { result ≡ book_with (record_of fresh) }
    {
        let away = Away {
            bid: Cents(0),
            offer: Cents(0),
        };
        let held = Held {
            last: Number(0),
            time: judge::OPENING,
            away,
            closed: false,
        };
        Book {
            held,
            buys: NO_ORDERS,
            sells: NO_ORDERS,
        }
    }

    pub fn is_sound(self) -> bool
        ensures { result ≡ record_sound (record_in self) }
    {
        inspection::is_sound(&self.held, &self.buys, &self.sells)
    }

    // ── A command ──
    // Within, a book is changed in place: for the stack's sake no copy of its 18 KB is made while a command is worked, and the sides are loaded
    // where they stand.

    // A command to a sound book, with room for its lines. What is held in place is saved after a refusal too, for it is the book as it came.
    #[tactic(auto, using(crate::proofs::LawsRecord::buys_fit, crate::proofs::LawsRecord::sells_fit))]
    fn work(&mut self, c: Command, out: &mut [u8]) -> Result<usize, Refusal>
        requires is_sound { record_sound (record_in self.old) ≡ true }
        requires room { least_room ≤ length out.old }
        ensures { Leaves self.new result out.new (step_on (record_in self.old) (Some c) out.old) }
    {
        let mut book = SoundBook {
            held: self.held,
            buys: Table::empty(),
            sells: Table::empty(),
        };
        book.buys.load(&self.buys.places, self.buys.used);
        book.sells.load(&self.sells.places, self.sells.used);
        let mut took = Takings::new();
        let answer = commands::apply(&mut book, c, &mut took, out);
        *self = Book::from(&book);
        answer
    }

    // What was read of a line, whatever the book and the output: the refusals in 01's order, and then the command.
    #[tactic(auto, using(crate::proofs::LawsStep::step_no_command))]
    fn respond(&mut self, reading: Option<Command>, out: &mut [u8]) -> Result<usize, Refusal>
        ensures { Leaves self.new result out.new (step_on (record_in self.old) reading out.old) }
    {
        let short = out.len() < rules::LEAST_ROOM;
        if short {
            return Err(Refusal::NoRoom);
        }
        let sound = inspection::is_sound(&self.held, &self.buys, &self.sells);
        if !sound {
            return Err(Refusal::UnsoundBook);
        }
        let Some(c) = reading else {
            return Err(Refusal::NoCommand);
        };
        self.work(c, out)
    }

    // 01 names the form: four methods, each of its own fields.
    pub fn accept(mut self, number: Number, time: u32, order: Order, out: &mut [u8]) -> Reply
        ensures value { result ≡ reply_of (step_on (record_in self)
            (Some (record { number = number; time = time; body = body.Order order })) out.old) }
        ensures out_after { out.new ≡ (step_on (record_in self)
            (Some (record { number = number; time = time; body = body.Order order })) out.old).out }
    {
        let answer = self.respond(command(number, time, Body::Order(order)), out);
        Reply { answer, book: self }
    }

    pub fn cancel(mut self, number: Number, time: u32, of: Number, out: &mut [u8]) -> Reply
        ensures value { result ≡ reply_of (step_on (record_in self)
            (Some (record { number = number; time = time; body = body.Cancel of })) out.old) }
        ensures out_after { out.new ≡ (step_on (record_in self)
            (Some (record { number = number; time = time; body = body.Cancel of })) out.old).out }
    {
        let answer = self.respond(command(number, time, Body::Cancel(of)), out);
        Reply { answer, book: self }
    }

    pub fn quote(mut self, number: Number, time: u32, away: Away, out: &mut [u8]) -> Reply
        ensures value { result ≡ reply_of (step_on (record_in self)
            (Some (record { number = number; time = time; body = body.Quote away })) out.old) }
        ensures out_after { out.new ≡ (step_on (record_in self)
            (Some (record { number = number; time = time; body = body.Quote away })) out.old).out }
    {
        let answer = self.respond(command(number, time, Body::Quote(away)), out);
        Reply { answer, book: self }
    }

    pub fn close(mut self, number: Number, time: u32, out: &mut [u8]) -> Reply
        ensures value { result ≡ reply_of (step_on (record_in self) (Some (record { number = number; time = time; body = body.Close }))
            out.old) }
        ensures out_after { out.new ≡ (step_on (record_in self)
            (Some (record { number = number; time = time; body = body.Close })) out.old).out }
    {
        let answer = self.respond(command(number, time, Body::Close), out);
        Reply { answer, book: self }
    }

    // The entry: a line of any bytes to any book, with any output.
    #[tactic(auto, unfolding(rules::specs::Step::step))]
    pub fn answer(mut self, line: &[u8], out: &mut [u8]) -> Reply
        ensures value { result ≡ reply_of (step (record_in self) line.now out.old) }
        ensures out_after { out.new ≡ (step (record_in self) line.now out.old).out }
    {
        let answer = self.respond(reader::read_command(line), out);
        Reply { answer, book: self }
    }
}
