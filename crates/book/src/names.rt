// Which cells have a word by a regional NAME: a mark for each.
ghost use Rattle.std.specs.Prelude.{true, false, ◌≡◌, get_or, set};

pub(crate) fn named(names: &[bool], c: u16) -> bool
    ensures { result ≡ get_or names.now c false }
{
    names.get(usize::from(c)).copied().unwrap_or(false)
}

pub(crate) fn mark(names: &mut [bool], c: u16)
    ensures { names.new ≡ set names.old c true }
{
    cells::set_at(names, usize::from(c), true);
}
