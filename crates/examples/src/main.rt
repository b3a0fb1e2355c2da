// Runs many days one after another, each from a fresh book, so that the gate holds every one of them to the output that is given
// with it. A line that begins with `#` names the day whose lines come next; tools/gather-days writes the input and the output.
// A day is run as the program runs it, but in pieces so short that its lines are cut anywhere, and with so little room for output
// that it runs short.

#![tactic(auto)]

ghost use Rattle.std.specs.Prelude.{◌≡◌, ◌+◌, ◌≤◌, ◌<◌, length, IfOk};
ghost use Rattle.rules.specs.Refusals.{least_room};

use anyhow::{Context, Result};
use day::{night, replay};
use orders::takings::Takings;
use side::tables::SoundBook;
use std::io;

// ── The days ──

// The place after the next line feed, or the end.
fn line_after(days: &[u8], from: usize) -> usize
    requires { from < length days.now }
    ensures { (from < result) × (result ≤ length days.now) }
{
    match days[from..].iter().position(|&b| b == b'\n') {
        Some(n) => from + n + 1,
        None => days.len(),
    }
}

// The place of the next line that begins with `#`, or the end; a line begins at `from`.
fn day_after(days: &[u8], from: usize) -> usize
    requires { from ≤ length days.now }
    ensures { (from ≤ result) × (result ≤ length days.now) }
{
    // A place that moves by whole lines: no step of a `for`.
    let mut i = from;
    while i < days.len() && days[i] != b'#' {
        i = line_after(days, i);
    }
    i
}

// Where the day ends whose heading stands at `at` and whose lines stand from `start` to `end`. Under a heading that begins with
// `#-` the last line has no line feed: the one in front of the next heading is not the day's.
fn day_end(days: &[u8], at: usize, start: usize, end: usize) -> usize
    requires { (at < start) × (start ≤ end) × (end ≤ length days.now) }
    ensures { (start ≤ result) × (result ≤ end) }
{
    let is_marked = days[at..start].get(1) == Some(&b'-');
    if is_marked && start < end {
        end - 1
    } else {
        end
    }
}

// ── A day ──

// Copies the next piece of a day behind the bytes that wait, if a turn asks for it; how many bytes these are.
fn copy_on(day: &[u8], at: usize, input: &mut [u8], have: usize, reads: bool) -> usize
    requires { (at ≤ length day.now) × (have ≤ length input.old) }
    ensures { (at + result ≤ length day.now) × (have + result ≤ length input.new) }
{
    if !reads {
        return 0;
    }
    let n = 97.min(day.len() - at).min(input.len() - have);
    input[have..have + n].copy_from_slice(&day[at..at + n]);
    n
}

// Writes what a turn handed over. This and `end_day` are those of `program`: no clause can say what a stream takes, and no public function of
// this repository has none.
fn hand_over(to: &mut impl io::Write, bytes: &[u8]) -> Result<()> {
    to.write_all(bytes)
        .context("yarvotem: writing standard output")
}

// Writes what the end of a day hands over, of the part of a line that waits.
fn end_day(to: &mut impl io::Write, part: &[u8], out: &mut [u8]) -> Result<()>
    requires { least_room ≤ length out.old }
{
    let length = night::finish(part, out);
    hand_over(to, &out[..length])
}

// A day, from a fresh book to its end, turn by turn; whether it came there. The book and the room for takings are lent, whatever a day before
// left in them: a new book for each day would be more work than a short day is.
fn run_day(
    to: &mut impl io::Write,
    day: &[u8],
    book: &mut SoundBook,
    took: &mut Takings,
    out: &mut [u8],
) -> Result<bool>
    requires { least_room ≤ length out.old }
{
    let mut input = [0u8; 147];
    replay::begin_again(book);
    let mut at = 0;
    let mut have = 0;
    for _ in 0..u64::MAX {
        let turn = night::take_turn(book, &mut input, have, took, out);
        hand_over(to, &out[..turn.length])?;
        have = turn.have;
        if turn.reads && at == day.len() {
            end_day(to, &input[..have], out)?;
            return Ok(true);
        }
        let more = copy_on(day, at, &mut input, have, turn.reads);
        at += more;
        have += more;
    }
    Ok(false)
}

// The days, each under the line that names it. They are passed by their places: a day is a run of lines, and whatever goes over lines
// would still have to count their bytes.
fn run_days(to: &mut impl io::Write, days: &[u8], out: &mut [u8]) -> Result<()>
    requires { least_room ≤ length out.old }
{
    let mut book = replay::begin();
    let mut took = Takings::new();
    let mut at = 0;
    while at < days.len() {
        let start = line_after(days, at);
        let end = day_after(days, start);
        hand_over(to, &days[at..start])?;
        let last = day_end(days, at, start, end);
        if !run_day(to, &days[start..last], &mut book, &mut took, out)? {
            return Ok(());
        }
        at = end;
    }
    Ok(())
}

// Room for the lines of one command and for a few bytes more, so that turns end within a piece too.
const OUTPUT: usize = rules::LEAST_ROOM + 104;

// The room of the input, of this program's own size. It is made apart from `main`: a proof that sees so many zeros counts them one by one,
// and its checker runs out of stack.
fn input_room() -> [u8; 2097152]
    ensures { 2097152 ≡ length result }
{
    [0; 2097152]
}

// Reads until the room is full or the input ends; how many bytes stand in it. A place moves by what a read gave, so this is a `while`; and
// `side_by_side` has the same, since no public function of this repository promises bounds alone.
fn read_full(from: &mut impl io::Read, input: &mut [u8]) -> Result<usize>
    ensures { IfOk result (λ end. end ≤ length input.new) }
{
    let mut end = 0;
    while end < input.len() {
        let got = from
            .read(&mut input[end..])
            .context("yarvotem: reading standard input")?;
        if got == 0 {
            break;
        }
        end += got;
    }
    Ok(end)
}

fn main(rt: HostRuntime) -> Result<()> {
    let mut input = input_room();
    let mut out = [0u8; OUTPUT];
    let end = read_full(&mut rt.stdin(), &mut input)?;
    run_days(&mut rt.stdout(), &input[..end], &mut out)
}
