// Runs a day: command lines on standard input, event lines on standard output, to the end of the input (01, Examples from the
// desk: the program). It reads, lets `day::night` take a turn, writes what that hands over, and ends with the error of a read or a
// write that failed.

#![tactic(auto)]

ghost use Rattle.std.specs.Prelude.{false, ◌≡◌, ◌≢◌, ℕ, ◌≤◌, ◌<◌, length, take, Ok, IfOk};
ghost use Rattle.command_lines.specs.Pieces.{part_kept};
ghost use Rattle.command_lines.specs.declared.lines.Read.TheVariants.{Failed, Upto};
ghost use Rattle.rules.specs.Refusals.{least_room};

use anyhow::{Context, Result};
use command_lines::lines;
use day::{night, replay};
use orders::takings::Takings;
use side::tables::SoundBook;
use std::io;

// The input is read in pieces of at most so many bytes.
const PIECE: usize = 65536;

// Room for as many bytes of event lines, and for those of one command more.
const OUTPUT: usize = PIECE + rules::LEAST_ROOM;

// Reads behind the bytes that wait, if a turn asks for it (`reads`): what it answers else is a part of its promise. The cast
// loses nothing of how many bytes were read.
fn read_on(
    from: &mut impl io::Read,
    input: &mut [u8],
    have: usize,
    reads: bool,
) -> Result<lines::Read>
    requires { have ≤ length input.old }
    ensures value { reads ≡ false → result ≡ Ok (Upto have) }
    ensures by_index { IfOk result (λ read. (end : ℕ) → read ≡ Upto end → end ≤ length input.new) }
    ensures input_unchanged { take have input.new ≡ take have input.old }
    ensures not_failed { IfOk result (λ read. read ≢ Failed) }
{
    if !reads {
        return Ok(lines::Read::Upto(have));
    }
    let got = from
        .read(&mut input[have..])
        .context("yarvotem: reading standard input")?;
    Ok(lines::after_read(got as isize, have, input.len()))
}

// Writes what a turn handed over. `examples` has this and `end_day` too, and says why.
fn hand_over(to: &mut impl io::Write, bytes: &[u8]) -> Result<()> {
    to.write_all(bytes)
        .context("yarvotem: writing standard output")
}

// Writes what the end of the input hands over, of the part of a line that waits.
fn end_day(to: &mut impl io::Write, part: &[u8], out: &mut [u8]) -> Result<()>
    requires { least_room ≤ length out.old }
{
    let length = night::finish(part, out);
    hand_over(to, &out[..length])
}

// A day on a book in place, to the end of the input. A proved loop has to end, and nothing says that an input does: so the turns are
// counted, up to a number that no day uses up. Not put into `main`: the two buffers are there only once the book is made, and the stack holds
// what it takes to make it, or these, and not both. How many bytes wait stands beside the input: the project has no heap.
#[inline(never)]
fn run(
    from: &mut impl io::Read,
    to: &mut impl io::Write,
    book: &mut SoundBook,
    took: &mut Takings,
) -> Result<()> {
    let mut input = [0u8; PIECE];
    let mut out = [0u8; OUTPUT];
    let mut have = 0;
    for _ in 0..u64::MAX {
        let turn = night::take_turn(book, &mut input, have, took, &mut out);
        hand_over(to, &out[..turn.length])?;
        have = turn.have;
        let read = read_on(from, &mut input, have, turn.reads)?;
        match read {
            lines::Read::Failed => unreachable!(),
            lines::Read::Ended => return end_day(to, &input[..have], &mut out),
            lines::Read::Upto(end) => have = end,
        }
    }
    Ok(())
}

fn main(rt: HostRuntime) -> Result<()> {
    let mut book = replay::begin();
    let mut took = Takings::new();
    run(&mut rt.stdin(), &mut rt.stdout(), &mut book, &mut took)
}
