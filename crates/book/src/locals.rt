// The locals of the open structure, by number.
ghost use Rattle.std.specs.Prelude.{◌≡◌, set, replicate};
ghost use Rattle.paper.specs.Limits.{many_locals};
ghost use Rattle.paper.specs.Deck.{local_at, all_words};
ghost use Rattle.book.specs.Kept.{local_of, locals_of, unmentioned};

use paper::limits;

// Its cell, 0 before its first mention as in the definitions, and whether it has a word. The two are one number, so that a look at all
// locals takes a few wide steps: the cell, and WORD more once it has a word.
#[derive(Clone, Copy, Debug, PartialEq, Eq)]
pub struct Local {
    pub bits: u32,
}

const WORD: u32 = 65536;

impl Local {
    pub(crate) fn new(cell: u16, has_word: bool) -> Self
        ensures { local_of result ≡ record { cell = cell; has_word = has_word } }
    {
        let bits = u32::from(cell);
        Local {
            bits: if has_word { bits + WORD } else { bits },
        }
    }

    pub(crate) fn cell(self) -> u16
        ensures { result ≡ (local_of self).cell }
    {
        (self.bits % WORD) as u16
    }

    pub(crate) fn has_word(self) -> bool
        ensures { result ≡ (local_of self).has_word }
    {
        WORD <= self.bits
    }
}

pub type Locals = [Local; limits::MANY_LOCALS];

// Before its first mention.
const UNMENTIONED: Local = Local { bits: 0 };

// Before a structure is open.
pub const NO_LOCALS: Locals = [UNMENTIONED; limits::MANY_LOCALS];

pub(crate) fn local_at(locals: &[Local], n: u16) -> Local
    ensures { local_of result ≡ local_at (locals_of locals.now) n }
{
    locals.get(usize::from(n)).copied().unwrap_or(UNMENTIONED)
}

pub(crate) fn note(locals: &mut [Local], n: u16, x: Local)
    ensures { locals.new ≡ set locals.old n x }
{
    cells::set_at(locals, usize::from(n), x);
}

// No local is mentioned.
pub fn forget(locals: &mut Locals)
    ensures { locals.new ≡ replicate many_locals unmentioned }
{
    *locals = NO_LOCALS;
}

// Whether each local that was mentioned has a word. All are looked at: the loop compiles to a few wide steps.
pub(crate) fn all_words(locals: &[Local]) -> bool
    ensures { result ≡ all_words (locals_of locals.now) }
{
    locals
        .iter()
        .fold(true, |all, x| all & ((x.bits == 0) | x.has_word()))
}
