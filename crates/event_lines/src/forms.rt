// The kinds of event lines, and of each how many bytes its line has (01, What the machine says back; 02, W2).
ghost use Rattle.std.specs.Prelude.{◌≡◌, ◌+◌};
ghost use Rattle.rules.specs.CommandLines.{digits_in};
ghost use Rattle.rules.specs.EventLines.{with_kind};
ghost use Rattle.event_lines.specs.Forms.{code_of, fields_of, kind_numbered};

// The kinds, with their numbers.
#[derive(Clone, Copy, Debug, PartialEq, Eq)]
pub enum Kind {
    Executed = 0x11,
    Rested = 0x12,
    Cancelled = 0x13,
    Moved = 0x14,
}

impl Kind {
    // The kind of a number, or that there is none; by methods, as `command_lines::forms` says.
    pub fn numbered(n: u32) -> Option<Kind>
        ensures { result ≡ kind_numbered n }
    {
        match n {
            0x11 => Some(Kind::Executed),
            0x12 => Some(Kind::Rested),
            0x13 => Some(Kind::Cancelled),
            0x14 => Some(Kind::Moved),
            _ => None,
        }
    }

    // Its number at the front of the line; the cast is how an enum tells its number.
    pub fn number(self) -> u8
        ensures { result ≡ code_of self }
    {
        self as u8
    }

    // How many bytes its line has, with the line feed.
    pub fn length(self) -> usize
        ensures { result ≡ digits_in (with_kind (fields_of self)) + 1 }
    {
        match self {
            Kind::Executed => rules::EXECUTED_LENGTH,
            Kind::Rested => rules::RESTED_LENGTH,
            Kind::Cancelled => rules::CANCELLED_LENGTH,
            Kind::Moved => rules::MOVED_LENGTH,
        }
    }
}
