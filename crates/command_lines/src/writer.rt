// The writer of command lines, for any field values, also ones that the book would refuse (01, Command lines): the header's 18
// digits and then the body's, which are written as a part of their own.
ghost use Rattle.std.specs.Prelude.{◌≡◌, [], ◌∷◌, ◌≤◌, ◌<◌, length};
ghost use Rattle.basics.specs.Bytes.{onto};
ghost use Rattle.rules.specs.CommandLines.{header_form, quote_form, cancel_form, order_form_of, form_of, numbers_of};
ghost use Rattle.rules.specs.CommandLines.{digits_in, written, line, command_in, line_of};
ghost use Rattle.rules.specs.declared.Body.TheVariants as body;
ghost use Rattle.command_lines.specs.Forms.{code_of};
ghost use Rattle.command_lines.specs.Writing.{written_for, buffer_of};

use crate::forms::Kind;
use kinds::Number;
use rules::{Away, Body, Carried, Command, Order, Refusal};

fn write_header(out: &mut [u8], kind: Kind, number: Number, time: u32)
    requires { digits_in header_form ≤ length out.old }
    ensures { out.new ≡ onto (written header_form (code_of kind ∷ number.0 ∷ time ∷ [])) out.old }
{
    digits::write(out, 0, kind.number());
    digits::write(out, 2, number.0);
    digits::write(out, 10, time);
}

fn write_order(out: &mut [u8], order: Order)
    requires { digits_in (order_form_of order.carried) < length out.old }
    ensures { out.new ≡ onto (line (form_of (body.Order order)) (numbers_of (body.Order order))) out.old }
{
    digits::write(out, 0, order.side);
    digits::write(out, 2, order.word);
    digits::write(out, 6, order.price.0);
    digits::write(out, 14, order.shares.0);
    let carried = order.carried;
    match carried {
        Carried::Nothing => {
            out[rules::ORDER_BODY] = b'\n';
        }
        Carried::MaxFloor(floor) => {
            digits::write(out, 22, floor.0);
            out[rules::RESERVE_BODY] = b'\n';
        }
        Carried::Minimum(least) => {
            digits::write(out, 22, least.0);
            out[rules::MINIMUM_BODY] = b'\n';
        }
    }
}

fn write_cancel(out: &mut [u8], number: Number)
    requires { digits_in cancel_form < length out.old }
    ensures { out.new ≡ onto (line (form_of (body.Cancel number)) (numbers_of (body.Cancel number))) out.old }
{
    digits::write(out, 0, number.0);
    out[rules::CANCEL_BODY] = b'\n';
}

fn write_quote(out: &mut [u8], away: Away)
    requires { digits_in quote_form < length out.old }
    ensures { out.new ≡ onto (line (form_of (body.Quote away)) (numbers_of (body.Quote away))) out.old }
{
    digits::write(out, 0, away.bid.0);
    digits::write(out, 8, away.offer.0);
    out[rules::QUOTE_BODY] = b'\n';
}

// The body and the line feed that ends the line.
fn write_body(out: &mut [u8], body: Body)
    requires { digits_in (form_of body) < length out.old }
    ensures { out.new ≡ onto (line (form_of body) (numbers_of body)) out.old }
{
    match body {
        Body::Order(order) => write_order(out, order),
        Body::Cancel(number) => write_cancel(out, number),
        Body::Quote(away) => write_quote(out, away),
        Body::Close => {
            out[rules::CLOSE_BODY] = b'\n';
        }
    }
}

// Writes the line of any command to the front of `out` and tells its length, or writes nothing where the room is short.
// Whatever the command's fields, its line reads back as that very command.
pub fn write_command(c: Command, out: &mut [u8]) -> Result<usize, Refusal>
    ensures value { result ≡ written_for c (length out.old) }
    ensures out_after { out.new ≡ buffer_of c out.old }
    ensures c_value { command_in (line_of c) ≡ Some c }
{
    let body = c.body;
    let kind = Kind::of(body);
    let length = rules::HEADER + kind.digits() + 1;
    if out.len() < length {
        return Err(Refusal::NoRoom);
    }
    write_header(out, kind, c.number, c.time);
    write_body(&mut out[rules::HEADER..], body);
    Ok(length)
}
