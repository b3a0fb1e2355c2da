// The kinds of command lines, and of each how many digits its body has (01, Command lines; 02, W4 and W7).
ghost use Rattle.std.specs.Prelude.{◌≡◌};
ghost use Rattle.rules.specs.CommandLines.{Fitting, digits_in, order_kind_of, order_form_of, kind_of, form_of, numbers_of};
ghost use Rattle.rules.specs.declared.Body.TheVariants as body;
ghost use Rattle.command_lines.specs.Forms.{code_of, form_at, kind_numbered};

use rules::{Body, Carried, Order};

// The kinds, with their numbers in the header. An order is of one of three, by what it carries after its shares.
#[derive(Clone, Copy, Debug, PartialEq, Eq)]
pub enum Kind {
    Order = 1,
    Cancel = 2,
    Quote = 3,
    Close = 4,
    Reserve = 5,
    Minimum = 6,
}

impl Kind {
    // The kind of a number, or that there is none. An `Option` and no `TryFrom`, and a method for the way back: readers go on by `?`, and the
    // three stand beside one another.
    pub fn numbered(n: u32) -> Option<Kind>
        ensures { result ≡ kind_numbered n }
    {
        match n {
            1 => Some(Kind::Order),
            2 => Some(Kind::Cancel),
            3 => Some(Kind::Quote),
            4 => Some(Kind::Close),
            5 => Some(Kind::Reserve),
            6 => Some(Kind::Minimum),
            _ => None,
        }
    }

    // That of an order. Each field of it fits the digits that it is given, as its type has it.
    fn of_order(order: Order) -> Kind
        ensures code { code_of result ≡ order_kind_of order.carried }
        ensures form { form_at result ≡ order_form_of order.carried }
        ensures fitting { Fitting (form_of (body.Order order)) (numbers_of (body.Order order)) }
    {
        let carried = order.carried;
        match carried {
            Carried::Nothing => Kind::Order,
            Carried::MaxFloor(floor) => Kind::Reserve,
            Carried::Minimum(least) => Kind::Minimum,
        }
    }

    // That of a body, of which the same holds.
    pub fn of(body: Body) -> Kind
        ensures code { code_of result ≡ kind_of body }
        ensures form { form_at result ≡ form_of body }
        ensures fitting { Fitting (form_of body) (numbers_of body) }
    {
        match body {
            Body::Order(order) => Kind::of_order(order),
            Body::Cancel(number) => Kind::Cancel,
            Body::Quote(away) => Kind::Quote,
            Body::Close => Kind::Close,
        }
    }

    // Its number in the header; the cast is how an enum tells its number.
    pub fn number(self) -> u8
        ensures { result ≡ code_of self }
    {
        self as u8
    }

    // How many digits its body has.
    pub fn digits(self) -> usize
        ensures { result ≡ digits_in (form_at self) }
    {
        match self {
            Kind::Order => rules::ORDER_BODY,
            Kind::Cancel => rules::CANCEL_BODY,
            Kind::Quote => rules::QUOTE_BODY,
            Kind::Close => rules::CLOSE_BODY,
            Kind::Reserve => rules::RESERVE_BODY,
            Kind::Minimum => rules::MINIMUM_BODY,
        }
    }
}
