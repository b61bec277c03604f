// The five kinds of case. Whether one was read lies in the input, of which no contract can speak.
ghost use Rattle.std.specs.Prelude.{◌≡◌};
ghost use Rattle.plain.specs.Numbers.{numbers, plain_on};
ghost use Rattle.vectors.specs.Lines.{action_at};

use crate::{answers, input};
use paper::{LoadAnswer, RunAnswer, Symbol};
use regions::Regions;
use std::io::Read;

// 'L': a load.
fn load(rt: &impl Print, cells: &mut [u64], deck: &[u8]) {
    answers::spoil(cells);
    let l = deck::load(deck, cells);
    let a = l.answer;
    let r = l.regions;
    answers::text(rt, b"L ");
    answers::load(rt, a);
    answers::text(rt, b" ");
    answers::regions(rt, r);
    answers::loaded(rt, a, cells);
}

// The answer of a run, its cycles, lines and cells.
fn run(rt: &impl Print, cells: &mut [u64], regions: Regions, budget: u32, out: &mut [u8]) {
    answers::clear(out);
    let r = machine::run(cells, regions, budget, out);
    let a = r.answer;
    answers::number(rt, a.number() as u64);
    answers::text(rt, b" ");
    answers::number(rt, r.cycles as u64);
    answers::text(rt, b" ");
    answers::lines(rt, out, r.len);
    answers::end(rt, answers::digest(cells));
}

// 'R': a load and, if that gives 0, a run.
fn load_and_run(rt: &impl Print, cells: &mut [u64], deck: &[u8], budget: u32, out: &mut [u8]) {
    answers::spoil(cells);
    let l = deck::load(deck, cells);
    let a = l.answer;
    let r = l.regions;
    answers::text(rt, b"R ");
    answers::load(rt, a);
    answers::text(rt, b" ");
    if a == LoadAnswer::Loaded {
        run(rt, cells, r, budget, out);
        return;
    }
    answers::text(rt, b"- - -");
    answers::loaded(rt, a, cells);
}

// 'S': a run from any store.
fn run_store(rt: &impl Print, cells: &mut [u64], regions: Regions, budget: u32, out: &mut [u8]) {
    answers::text(rt, b"S ");
    run(rt, cells, regions, budget, out);
}

// 'W': the walk of a symbol.
fn walk(rt: &impl Print, cells: &[u64], regions: Regions, x: Symbol) {
    let m = plain::walk(cells, regions, x);
    let a = m.answer;
    let met = m.cells;
    answers::text(rt, b"W ");
    answers::number(rt, a.number() as u64);
    answers::met(rt, &met, m.n);
    answers::text(rt, b"\n");
}

// The three plain actions by their place in a case: the number is what the contract can speak of, in a program that cannot hand one in by its block.
fn act(cells: &mut [u64], regions: Regions, action: u8) -> RunAnswer
    ensures { numbers result cells.new ≡ plain_on (action_at action) regions cells.old }
{
    match action {
        0 => plain::preserve(cells, regions),
        1 => plain::copy(cells, regions),
        _ => plain::erase(cells, regions),
    }
}

// One of the three plain actions, unless one before was refused: whether it finished. Refused, it leaves the cells as they were.
fn plainly(
    rt: &impl Print,
    cells: &mut [u64],
    regions: Regions,
    action: u8,
    reached: bool,
) -> bool {
    if !reached {
        answers::text(rt, b" -");
        return false;
    }
    let before = answers::digest(cells);
    let a = act(cells, regions, action);
    answers::text(rt, b" ");
    answers::number(rt, a.number() as u64);
    if a == RunAnswer::Finished {
        return true;
    }
    if before != answers::digest(cells) {
        answers::text(rt, b" changed");
    }
    false
}

// 'D': demand 3. Where an action is refused the line has the cells as given, whatever the actions before it did.
fn demand3(rt: &impl Print, cells: &mut [u64], regions: Regions) {
    let given = answers::digest(cells);
    answers::text(rt, b"D");
    let preserved = plainly(rt, cells, regions, 0, true);
    let copied = plainly(rt, cells, regions, 1, preserved);
    let erased = plainly(rt, cells, regions, 2, copied);
    if erased {
        answers::end(rt, answers::digest(cells));
        return;
    }
    answers::end(rt, given);
}

// N:3 LENGTH:2 DECK
fn read_load(
    rt: &impl Print,
    stdin: &mut impl Read,
    cells: &mut [u64],
    bytes: &mut [u8],
) -> Option<()> {
    let head = input::take(stdin, bytes, 5)?;
    let n = input::three(head, 0);
    let len = input::pair(head, 3);
    let deck = input::take(stdin, bytes, len)?;
    load(rt, cells.get_mut(..n)?, deck);
    Some(())
}

// N:3 BUDGET:4 ROOM:2 LENGTH:2 DECK
fn read_load_and_run(
    rt: &impl Print,
    stdin: &mut impl Read,
    cells: &mut [u64],
    bytes: &mut [u8],
    out: &mut [u8],
) -> Option<()> {
    let head = input::take(stdin, bytes, 11)?;
    let n = input::three(head, 0);
    let budget = input::four(head, 3);
    let room = input::pair(head, 7);
    let len = input::pair(head, 9);
    let deck = input::take(stdin, bytes, len)?;
    load_and_run(rt, cells.get_mut(..n)?, deck, budget, out.get_mut(..room)?);
    Some(())
}

// N:3 BUDGET:4 ROOM:2 REGIONS CELLS
fn read_run(
    rt: &impl Print,
    stdin: &mut impl Read,
    cells: &mut [u64],
    bytes: &mut [u8],
    out: &mut [u8],
) -> Option<()> {
    let head = input::take(stdin, bytes, 9)?;
    let n = input::three(head, 0);
    let budget = input::four(head, 3);
    let room = input::pair(head, 7);
    let r = input::regions(stdin, bytes)?;
    input::cells(stdin, bytes, cells, n)?;
    run_store(rt, cells.get_mut(..n)?, r, budget, out.get_mut(..room)?);
    Some(())
}

// TAG:1 NUMBER:2 N:3 REGIONS CELLS
fn read_walk(
    rt: &impl Print,
    stdin: &mut impl Read,
    cells: &mut [u64],
    bytes: &mut [u8],
) -> Option<()> {
    let head = input::take(stdin, bytes, 6)?;
    let x = Symbol {
        tag: input::byte(head, 0),
        num: input::pair(head, 1) as u16,
    };
    let n = input::three(head, 3);
    let r = input::regions(stdin, bytes)?;
    input::cells(stdin, bytes, cells, n)?;
    walk(rt, cells.get(..n)?, r, x);
    Some(())
}

// N:3 REGIONS CELLS
fn read_demand3(
    rt: &impl Print,
    stdin: &mut impl Read,
    cells: &mut [u64],
    bytes: &mut [u8],
) -> Option<()> {
    let n = input::three(input::take(stdin, bytes, 3)?, 0);
    let r = input::regions(stdin, bytes)?;
    input::cells(stdin, bytes, cells, n)?;
    demand3(rt, cells.get_mut(..n)?, r);
    Some(())
}

// None where there is no whole case.
fn read(
    rt: &impl Print,
    stdin: &mut impl Read,
    kind: u8,
    cells: &mut [u64],
    bytes: &mut [u8],
    out: &mut [u8],
) -> Option<()> {
    match kind {
        b'L' => read_load(rt, stdin, cells, bytes),
        b'R' => read_load_and_run(rt, stdin, cells, bytes, out),
        b'S' => read_run(rt, stdin, cells, bytes, out),
        b'W' => read_walk(rt, stdin, cells, bytes),
        b'D' => read_demand3(rt, stdin, cells, bytes),
        _ => None,
    }
}

// Whether there was a case.
pub(crate) fn next(
    rt: &impl Print,
    stdin: &mut impl Read,
    cells: &mut [u64],
    bytes: &mut [u8],
    out: &mut [u8],
) -> bool {
    let Some(tag) = input::take(stdin, bytes, 1) else {
        return false;
    };
    let kind = input::byte(tag, 0);
    let whole = read(rt, stdin, kind, cells, bytes, out).is_some();
    if !whole {
        answers::text(rt, b"no whole case\n");
    }
    whole
}
