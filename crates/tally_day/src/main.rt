// Tallies one order over a day's event lines (02, W1), for a broker's clerk: the lines on standard input, the order's number as the
// argument, one line out. What goes wrong is told on standard error alone, and the error of a read or a write that failed ends it.

#![tactic(auto)]

ghost use Rattle.std.specs.Prelude.{◌≡◌, ◌≤◌, ◌<◌, length, take};
ghost use Rattle.command_lines.specs.Pieces.{part_kept, after_lines, after_part};
ghost use Rattle.rules.specs.Day.{cut};
ghost use Rattle.tally.specs.Tally.{turn};
ghost use Rattle.tally_day.specs.Decimal.{decimal_in};

use anyhow::{Context, Result};
use command_lines::lines;
use kinds::Number;
use std::env::{Env, FillError};
use std::io;
use tally::{Stop, Tally};

// ── The argument ──

// The order number that one to ten decimal digits write.
#[tactic(auto, unfolding(crate::specs::Decimal::decimal_in))]
fn decimal_in(s: &[u8]) -> Option<u32>
    ensures { result ≡ decimal_in s.now }
{
    if s.is_empty() || 10 < s.len() {
        return None;
    }
    let mut value: u32 = 0;
    for &c in s {
        if !c.is_ascii_digit() {
            return None;
        }
        value = value.checked_mul(10)?.checked_add(u32::from(c - b'0'))?;
    }
    Some(value)
}

// ── A piece ──

// What a piece leaves: the tally, and the length of the part of a line that is carried.
#[derive(Clone, Copy)]
struct Kept {
    tally: Tally,
    have: usize,
}

// Tallies the whole lines of the bytes up to `end`, and moves the part of a line behind them to the front.
fn take_piece(t: Tally, number: Number, input: &mut [u8], end: usize) -> Kept
    requires { end ≤ length input.old }
    ensures tally_value { result.tally ≡ after_lines (turn number) t (cut (take end input.old)).whole }
    ensures input_after { take result.have input.new ≡ take part_kept (cut (take end input.old)).part }
    ensures have_le_part_kept { result.have ≤ part_kept }
{
    let fed = tally::feed(t, number, &input[..end]);
    let have = lines::carry(input, fed.at, end, rules::LONGEST_LINE + 1);
    let tally = fed.tally;
    Kept { tally, have }
}

// The end of the input: a part of a line that is left is a line with no line feed.
fn finish(t: Tally, number: Number, part: &[u8]) -> Tally
    ensures { result ≡ after_part (turn number) t part.now }
{
    if part.is_empty() {
        return t;
    }
    tally::take_line(t, number, part)
}

// ── What is said ──

fn say_sums(rt: &impl Print, executed: u32, cancelled: u32) -> Result<()> {
    println!(rt; "executed {executed}, cancelled {cancelled}").context(
        "yarvotem: writing standard output",
    )
}

// Why the line behind the counted ones stopped the tally; people count lines from 1.
fn say_stop(rt: &impl Eprint, lines: u64, stop: Stop) -> Result<()> {
    let place = lines.saturating_add(1);
    eprintln!(rt; "line {place}: {stop}").context("yarvotem: writing standard error")
}

fn say(rt: &(impl Print + Eprint), t: Tally) -> Result<()> {
    match t.stop {
        None => say_sums(rt, t.executed.0, t.cancelled.0),
        Some(stop) => say_stop(rt, t.lines, stop),
    }
}

// ── A day ──

// From the first piece to the end of the input. A proved loop has to end, and nothing says that an input does: so the turns are
// counted up to a number that no day comes to. The cast loses nothing of how many bytes were read.
fn run(
    rt: &(impl Print + Eprint),
    from: &mut impl io::Read,
    number: Number,
    input: &mut [u8],
) -> Result<()>
    requires { part_kept < length input.old }
{
    let mut tally = tally::begin();
    let mut have = 0;
    for _ in 0..u64::MAX {
        let got = from
            .read(&mut input[have..])
            .context("yarvotem: reading standard input")?;
        match lines::after_read(got as isize, have, input.len()) {
            lines::Read::Failed => unreachable!(),
            lines::Read::Ended => return say(rt, finish(tally, number, &input[..have])),
            lines::Read::Upto(end) => {
                let carried = take_piece(tally, number, input, end);
                tally = carried.tally;
                have = carried.have;
            }
        }
    }
    Ok(())
}

fn say_usage(rt: &impl Eprint) -> Result<()> {
    eprintln!(rt;
        "usage: yarvotem tally NUMBER < LINES, an order number of 1 to 10 decimal digits, at most 4294967295"
    ).context("yarvotem: writing standard error")
}

// The order number that the one argument writes.
fn asked(rt: &HostRuntime) -> Option<Number> {
    let mut word = [0u8; 16];
    let length = rt.arg(1, &mut word).ok()?;
    let Err(FillError::NotPresent) = rt.arg(2, &mut []) else {
        return None;
    };
    decimal_in(&word[..length]).map(Number)
}

fn main(rt: HostRuntime) -> Result<()> {
    let Some(number) = asked(&rt) else {
        return say_usage(&rt);
    };
    let mut from = rt.stdin();
    let mut input = [0u8; 65536];
    run(&rt, &mut from, number, &mut input)
}
