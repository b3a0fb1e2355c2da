// The instruction word of an order (01, Command lines): which of its bits are set, and which words are lawful.
ghost use Rattle.std.specs.Prelude.{◌≡◌};
ghost use Rattle.rules.specs.Instructions.{has, one_of, lawful};

pub fn has(word: u16, bit: u16) -> bool
    ensures { result ≡ has word bit }
{
    word & bit != 0
}

// Exactly one of the bits of a mask is set: the ones of the masked word are counted.
fn one_of(word: u16, mask: u16) -> bool
    ensures { result ≡ one_of word mask }
{
    u16::count_ones(word & mask) == 1
}

// Lawful words; bit 10, which an order with reserve has set, needs Day and Displayed (02, W4).
pub(crate) fn lawful(word: u16) -> bool
    ensures { result ≡ lawful word }
{
    (word < 2048)
        & one_of(word, rules::IOC + rules::FOK + rules::DAY)
        & one_of(word, rules::DISPLAYED + rules::NON_DISPLAYED)
        & one_of(word, rules::PRICE_ADJUST + rules::CANCEL_BACK)
        & (!has(word, rules::POST_ONLY)
            | (has(word, rules::DAY) & has(word, rules::DISPLAYED) & !has(word, rules::ISO)))
        & (!has(word, rules::ISO) | (!has(word, rules::FOK) & !has(word, rules::MARKET)))
        & (!has(word, rules::MARKET) | (has(word, rules::IOC) | has(word, rules::FOK)))
        & (!has(word, rules::RESERVE) | (has(word, rules::DAY) & has(word, rules::DISPLAYED)))
}
