// The writers of event lines 11 to 14, and of a refusal's line (01, What the machine says back; 02, W2). Each gets the rest of the
// output, from its first free byte, as a mutable subslice, writes its line to the front of it and tells the line's length. That there
// is room for the line is the caller's to show: whoever accepts a command has tested the room for all of its lines.
ghost use Rattle.std.specs.Prelude.{[], ◌∷◌, ◌≡◌, ◌≤◌, length};
ghost use Rattle.basics.specs.Bytes.{onto};
ghost use Rattle.rules.specs.CommandLines.{line};
ghost use Rattle.rules.specs.EventLines.{rested_fields, with_kind, event_line, refusal_line};
ghost use Rattle.event_lines.specs.Forms.{code_of};
ghost use Rattle.rules.specs.declared.Event.TheVariants.{Executed, Rested, Cancelled, Moved};

use crate::forms::Kind;
use kinds::{HalfCents, Number, Shares};

// Line 11: shares of a resting order are executed against the incoming one.
pub fn write_executed(
    out: &mut [u8],
    incoming: Number,
    resting: Number,
    price: HalfCents,
    shares: Shares,
) -> usize
    requires { 35 ≤ length out.old }
    ensures value { result ≡ 35 }
    ensures out_after { out.new ≡ onto (event_line (Executed incoming resting price shares)) out.old }
{
    digits::write(out, 0, Kind::Executed.number());
    digits::write(out, 2, incoming.0);
    digits::write(out, 10, resting.0);
    digits::write(out, 18, price.0);
    digits::write(out, 26, shares.0);
    out[rules::EXECUTED_LENGTH - 1] = b'\n';
    rules::EXECUTED_LENGTH
}

// Lines 12 and 14 are alike but for their kind: an order at a price.
fn write_at_price(
    out: &mut [u8],
    kind: Kind,
    number: Number,
    price: HalfCents,
    shares: Shares,
) -> usize
    requires { 27 ≤ length out.old }
    ensures value { result ≡ 27 }
    ensures out_after { out.new ≡ onto (line (with_kind rested_fields) (code_of kind ∷ number.0 ∷ price.0 ∷ shares.0 ∷ []))
        out.old }
{
    digits::write(out, 0, kind.number());
    digits::write(out, 2, number.0);
    digits::write(out, 10, price.0);
    digits::write(out, 18, shares.0);
    out[rules::RESTED_LENGTH - 1] = b'\n';
    rules::RESTED_LENGTH
}

// Line 12: an order rests.
pub fn write_rested(out: &mut [u8], number: Number, price: HalfCents, shares: Shares) -> usize
    requires { 27 ≤ length out.old }
    ensures value { result ≡ 27 }
    ensures out_after { out.new ≡ onto (event_line (Rested number price shares)) out.old }
{
    write_at_price(out, Kind::Rested, number, price, shares)
}

// Line 13: shares of an order are cancelled. The reason is the byte of the line, as any event's is that was read.
pub fn write_cancelled(out: &mut [u8], number: Number, shares: Shares, reason: u8) -> usize
    requires { 21 ≤ length out.old }
    ensures value { result ≡ 21 }
    ensures out_after { out.new ≡ onto (event_line (Cancelled number shares reason)) out.old }
{
    digits::write(out, 0, Kind::Cancelled.number());
    digits::write(out, 2, number.0);
    digits::write(out, 10, shares.0);
    digits::write(out, 18, reason);
    out[rules::CANCELLED_LENGTH - 1] = b'\n';
    rules::CANCELLED_LENGTH
}

// Line 14: a resting order is set at a price with a new stamp.
pub fn write_moved(out: &mut [u8], number: Number, price: HalfCents, shares: Shares) -> usize
    requires { 27 ≤ length out.old }
    ensures value { result ≡ 27 }
    ensures out_after { out.new ≡ onto (event_line (Moved number price shares)) out.old }
{
    write_at_price(out, Kind::Moved, number, price, shares)
}

// The line that the program prints of a refusal, of any number of one byte: an enum here would ask more of callers.
pub fn write_refusal(out: &mut [u8], refusal: u8) -> usize
    requires { 5 ≤ length out.old }
    ensures value { result ≡ 5 }
    ensures out_after { out.new ≡ onto (refusal_line refusal) out.old }
{
    digits::write(out, 0, 0x1fu8);
    digits::write(out, 2, refusal);
    out[4] = b'\n';
    5
}
