// Runs a day from standard input twice over, line by line: through the book by value, and through the book with one side lent as a
// slice of records (01, The book). After each line both must have said the same and left the same book; then what the line prints
// is written, as the program writes it. At the first difference the line `differs` is written, and nothing more.

#![tactic(auto)]

ghost use Rattle.std.specs.Prelude.{◌≡◌, ◌≤◌, length, IfOk};

use anyhow::{Context, bail};
use book::{Book, Reply};
use event_lines::writer;
use rules::Refusal;
use std::io;

// What the two ways said and left, with the output of each; the unused places are compared too, for the core leaves them zero.
fn agree(a: &Reply, b: &Reply, out: &[u8], other: &[u8]) -> bool {
    let length = a.answer.unwrap_or(0);
    let (Some(lines), Some(others)) = (out.get(..length), other.get(..length)) else {
        return false;
    };
    (a == b) & (lines == others)
}

// ── A line ──

// Writes what a turn of the day hands over, as `program` and `examples` do: no clause can say what a stream takes, and no public function here
// has none.
fn hand_over(to: &mut impl io::Write, bytes: &[u8]) -> anyhow::Result<()> {
    to.write_all(bytes)
        .context("yarvotem: writing standard output")
}

// Writes what a line prints: its event lines, or the line of its refusal. The output is long enough where `agree` has looked at it.
fn print(
    to: &mut impl io::Write,
    answer: Result<usize, Refusal>,
    out: &[u8],
) -> anyhow::Result<()> {
    match answer {
        Ok(length) => {
            let Some(lines) = out.get(..length) else {
                bail!("yarvotem: writing standard output");
            };
            hand_over(to, lines)
        }
        Err(refusal) => {
            let mut line = [0u8; 5];
            writer::write_refusal(&mut line, u8::from(refusal));
            hand_over(to, &line)
        }
    }
}

// The book that a line leaves, if the two ways agree.
fn run_line(
    to: &mut impl io::Write,
    book: Book,
    buys: bool,
    line: &[u8],
    out: &mut [u8],
    other: &mut [u8],
) -> anyhow::Result<Option<Book>> {
    let reply = book.answer(line, out);
    let lent = lent::answer_lending(book, buys, line, other);
    if !agree(&reply, &lent, out, other) {
        hand_over(to, b"differs\n")?;
        return Ok(None);
    }
    print(to, reply.answer, out)?;
    Ok(Some(reply.book))
}

// ── The day ──

// The sells are lent for the first line, the buys for the next, and so in turn.
fn run_day(
    to: &mut impl io::Write,
    day: &[u8],
    out: &mut [u8],
    other: &mut [u8],
) -> anyhow::Result<()> {
    let mut book = Book::fresh();
    let mut buys = false;
    for line in day.split_inclusive(|&c| c == b'\n') {
        let Some(next) = run_line(to, book, buys, line, out, other)? else {
            break;
        };
        book = next;
        buys = !buys;
    }
    Ok(())
}

// The room of the input, of this program's own size. It is made apart from `main`: a proof that sees so many zeros counts them one by one,
// and its checker runs out of stack.
fn input_room() -> [u8; 65536]
    ensures { 65536 ≡ length result }
{
    [0; 65536]
}

// Reads until the room is full or the input ends; how many bytes stand in it: `read_full` of `examples`, which says why it is written twice.
fn read_full(from: &mut impl io::Read, input: &mut [u8]) -> anyhow::Result<usize>
    ensures { IfOk result (λ end. end ≤ length input.new) }
{
    let mut end = 0;
    while end < input.len() {
        let got = from
            .read(&mut input[end..])
            .context("yarvotem: reading standard input")?;
        if got == 0 {
            break;
        }
        end += got;
    }
    Ok(end)
}

fn main(rt: HostRuntime) -> anyhow::Result<()> {
    let mut input = input_room();
    let mut out = [0u8; rules::LEAST_ROOM];
    let mut other = [0u8; rules::LEAST_ROOM];
    let end = read_full(&mut rt.stdin(), &mut input)?;
    run_day(&mut rt.stdout(), &input[0..end], &mut out, &mut other)
}
