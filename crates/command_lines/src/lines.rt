// Where the first line of some bytes ends, and what it reads as (01, Command lines). A line that is a command is read before its
// line feed is looked for. What is left of a piece of input is moved to the front, for the next piece to go on with.
ghost use Rattle.std.specs.Prelude.{◌≡◌, ◌≤◌, eqb, length};
ghost use Rattle.basics.specs.Bytes.{onto};
ghost use Rattle.basics.specs.Lists.{first_where};
ghost use Rattle.rules.specs.CommandLines.{line_feed};
ghost use Rattle.command_lines.specs.Lines.{digits_after, first_line, other_line};
ghost use Rattle.command_lines.specs.Pieces.{carried, read_behind};

use crate::reader;
use rules::Command;

// The first line of some bytes: how many stand before its line feed, and what it reads as.
#[derive(Clone, Copy)]
pub struct Line {
    pub digits: usize,
    pub reading: Option<Command>,
}

// How many digits a command has whose second digit is `c`; 0 where there is none, as what is read then, one byte, is no command.
#[tactic(auto, unfolding(crate::specs::Lines::digits_after, crate::specs::Lines::digits_from, rules::specs::CommandLines::kinds))]
fn digits_after(c: u8) -> usize
    ensures { result ≡ digits_after c }
{
    match c {
        b'1' => rules::ORDER_DIGITS,
        b'2' => rules::CANCEL_DIGITS,
        b'3' => rules::QUOTE_DIGITS,
        b'4' => rules::CLOSE_DIGITS,
        b'5' => rules::RESERVE_DIGITS,
        b'6' => rules::MINIMUM_DIGITS,
        _ => 0,
    }
}

// The place of the first line feed, or the length where there is none.
pub fn scan_line(s: &[u8]) -> usize
    ensures { result ≡ first_where (λ c. eqb c line_feed) s.now }
{
    s.iter().position(|&c| c == b'\n').unwrap_or(s.len())
}

// The first line, where it is no command.
fn other_line(s: &[u8]) -> Line
    ensures { result ≡ other_line s.now }
{
    let n = scan_line(s);
    Line {
        digits: n,
        reading: None,
    }
}

// Most lines are commands: the bytes of one are read first, and where they are one, no other byte of them is a line feed. Only a
// line that is none is looked through for its end.
pub fn first_line(s: &[u8]) -> Line
    ensures { result ≡ first_line s.now }
{
    if s.len() < 2 {
        return other_line(s);
    }
    let n = digits_after(s[1]);
    if s.len() <= n {
        return other_line(s);
    }
    let Some(c) = reader::read_command(&s[0..n + 1]) else {
        return other_line(s);
    };
    Line {
        digits: n,
        reading: Some(c),
    }
}

// ── An input in pieces ──

// Moves the bytes that stand from `from` to `end` to the front, of which no more than `most` are kept, and tells how many these are.
pub fn carry(input: &mut [u8], from: usize, end: usize, most: usize) -> usize
    requires { (from ≤ end) × (end ≤ length input.old) }
    ensures value { result ≡ length (carried input.old from end most) }
    ensures input_after { input.new ≡ onto (carried input.old from end most) input.old }
{
    let kept = most.min(end - from);
    input.copy_within(from..from + kept, 0);
    kept
}

// What a read leaves behind the bytes that stood in a buffer: it failed, or the input has ended, or bytes stand up to a place.
// An enum of its own, and of every `isize`: `after_read_says` of `promises` speaks of both.
#[derive(Clone, Copy)]
pub enum Read {
    Failed,
    Ended,
    Upto(usize),
}

// What `read` answered, where `have` bytes stood in a buffer of so much room. It gives no more than the room behind them, and more is not
// believed. The cast is of a number above 0.
pub fn after_read(got: isize, have: usize, room: usize) -> Read
    requires { have ≤ room }
    ensures { result ≡ read_behind got have room }
{
    if got < 0 {
        return Read::Failed;
    }
    if got == 0 {
        return Read::Ended;
    }
    let more = got as usize;
    if room - have < more {
        return Read::Upto(room);
    }
    Read::Upto(have + more)
}
