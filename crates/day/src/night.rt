// The turns of a day (01, Examples from the desk: the program): all that the program does between a read and a write. What
// reads, calls these and writes what they hand over is the program itself.
ghost use Rattle.std.specs.Prelude.{◌≡◌, ◌≤◌, length};
ghost use Rattle.basics.specs.Bytes.{onto};
ghost use Rattle.day.specs.Pieces.{printed_at_end};
ghost use Rattle.rules.specs.Refusals.{least_room};
ghost use Rattle.day.specs.Turns.{Takes};

use crate::replay;
use command_lines::lines;
use event_lines::writer;
use orders::takings::Takings;
use rules::Refusal;
use side::tables::SoundBook;

// What a turn leaves: how many bytes wait at the front of the input, how many bytes of the output are to be written, and whether more is to
// be read before the next turn: three things that a turn leaves, of which none is the value of another.
#[derive(Clone, Copy)]
pub struct Turn {
    pub have: usize,
    pub length: usize,
    pub reads: bool,
}

// A turn: works the whole lines of the first `have` bytes as far as the output has room, and moves what is left to the front.
pub fn take_turn(
    book: &mut SoundBook,
    input: &mut [u8],
    have: usize,
    took: &mut Takings,
    out: &mut [u8],
) -> Turn
    requires within { have ≤ length input.old }
    requires room { least_room ≤ length out.old }
    ensures { Takes book.old input.old have out.old result book.new input.new out.new }
{
    let fed = replay::feed(book, &input[..have], took, out);
    let length = fed.length;
    let is_short = out.len() - length < rules::LEAST_ROOM;
    let most = if is_short {
        have
    } else {
        rules::LONGEST_LINE + 1
    };
    let left = lines::carry(input, fed.at, have, most);
    Turn {
        have: left,
        length,
        reads: !is_short,
    }
}

// The end of the input: a part of a line that waits has no line feed, and is refused; how many bytes of the output are to be written.
pub fn finish(part: &[u8], out: &mut [u8]) -> usize
    requires { 5 ≤ length out.old }
    ensures value { result ≡ length (printed_at_end part.now) }
    ensures fits { result ≤ length out.new }
    ensures out_after { out.new ≡ onto (printed_at_end part.now) out.old }
{
    let none_waits = part.len() == 0;
    if none_waits {
        return 0;
    }
    writer::write_refusal(out, u8::from(Refusal::NoCommand))
}
