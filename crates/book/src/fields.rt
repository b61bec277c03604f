// What a symbol of a deck tells by its class.
ghost use Rattle.std.specs.Prelude.{◌≡◌};
ghost use Rattle.paper.specs.Deck.{data_tag, is_blank, is_missing};

use crate::listed::is_listed;
use paper::{Field, Symbol};

// "P 0, Q 0 or 2 as SYMB is regional or local"; "a blank or `0` data SYMB makes an empty word"
pub fn data_tag(f: Field) -> u8
    ensures { result ≡ data_tag f }
{
    match f {
        Field::Regional(_, _) => Symbol::REGIONAL,
        Field::Local(_) => Symbol::LOCAL,
        Field::Zero | Field::Blank => Symbol::INTERNAL,
    }
}

pub fn is_blank(f: Field) -> bool
    ensures { result ≡ is_blank f }
{
    matches!(f, Field::Blank)
}

// CR 5: "a process we don't have".
pub fn is_missing(f: Field) -> bool
    ensures { result ≡ is_missing f }
{
    match f {
        Field::Regional(b, n) => b == b'J' && !is_listed(n),
        _ => false,
    }
}
