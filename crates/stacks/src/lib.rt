// The processes on H0, H5 and the W cells, J0 to J9 but J1 and J20 to J59, and those on tags, J130 to J138: a decision over the numbers of
// each. J1 is the cycle's. (0), (1) are the symbols down H0: the words w0, w1.
#![tactic(auto)]

ghost use Rattle.std.specs.Prelude.{ℕ, ◌≤◌, ◌≢◌};
ghost use Rattle.paper.specs.Process.{J2, J5, J6, J9, move_to, J2n, J3n, J4n, J5n, tests_tag, J131, retags};
ghost use Rattle.paper.specs.Process.{perform, each_w};
ghost use Rattle.paper.specs.Act.{Act};
ghost use Rattle.undo.specs.Log.{Room};
ghost use Rattle.undo.specs.Did.{Always, Top, Suits, Did};
ghost use Rattle.acts.specs.GoesOn.{going_on};
ghost use Rattle.stacks.specs.Tagged.{tagged};

use paper::{Refusal, Symbol, limits};

// J0 to J59 but J1. Those named are listed.
pub fn on_stacks(cells: &mut [u64], log: &mut [u64], top: u16, j: u16) -> Result<(), Refusal>
    requires { Suits log.old 40 top × (j ≤ 59) × (j ≢ 1) }
    ensures { Did (Top top) 40 (perform j) cells log (going_on result) }
{
    match j {
        0 => Ok(()),
        2 => j2(cells, log, top),
        3 => {
            acts::set_h5(cells, log, false);
            Ok(())
        }
        4 => {
            acts::set_h5(cells, log, true);
            Ok(())
        }
        5 => {
            j5(cells, log);
            Ok(())
        }
        6 => j6(cells, log, top),
        8 => acts::pop(cells, log, top),
        9 => j9(cells, log, top),
        20..=29 => j2n(cells, log, top, j - 20),
        30..=39 => j3n(cells, log, top, j - 30),
        40..=49 => j4n(cells, log, top, j - 40),
        50..=59 => j5n(cells, log, top, j - 50),
        _ => Err(Refusal::NotListed(limits::J0 + j)),
    }
}

// J130 to J151. Those named are listed.
pub fn on_tags(cells: &mut [u64], log: &mut [u64], top: u16, j: u16) -> Result<(), Refusal>
    requires { Suits log.old 2 top × (130 ≤ j) × (j ≤ 151) }
    ensures { Did (Top top) 2 (perform j) cells log (going_on result) }
{
    match j {
        130 => tests_tag(cells, log, top, Symbol::REGIONAL),
        131 => j131(cells, log, top),
        132 => tests_tag(cells, log, top, Symbol::LOCAL),
        134 => tests_tag(cells, log, top, Symbol::INTERNAL),
        136 => retags(cells, log, top, Symbol::LOCAL),
        138 => retags(cells, log, top, Symbol::INTERNAL),
        _ => Err(Refusal::NotListed(limits::J0 + j)),
    }
}

// "J2 H5 plus if (0)=(1) by number."
fn j2(cells: &mut [u64], log: &mut [u64], top: u16) -> Result<(), Refusal>
    requires { Suits log.old 2 top }
    ensures { Did (Top top) 2 J2 cells log result }
{
    let w0 = acts::own(cells, limits::H0);
    let w1 = acts::below(cells, limits::H0, w0)?;
    acts::tests::<2>(
        cells,
        log,
        top,
        w0 / cells::SYMB % 65536 == w1 / cells::SYMB % 65536,
    )
}

// "J5 turns J3 into J4 and anything else into J3, by number."
fn j5(cells: &mut [u64], log: &mut [u64])
    requires { Room log.old 0 }
    ensures { Did Always 0 J5 cells log (Ok tt) }
{
    let h = acts::own(cells, limits::H5);
    acts::set_h5(cells, log, (h / cells::SYMB % 65536) as u16 == limits::J3);
}

// "J6 swap: pushes the old (0), then the old (1)." The second pop and the first push are one.
fn j6(cells: &mut [u64], log: &mut [u64], top: u16) -> Result<(), Refusal>
    requires { Suits log.old 4 top }
    ensures { Did (Top top) 4 J6 cells log result }
{
    let w0 = acts::own(cells, limits::H0);
    let w1 = acts::below(cells, limits::H0, w0)?;
    acts::pop(cells, log, top)?;
    acts::gives1(cells, log, top, cells::symbol(w0))?;
    acts::push(cells, log, cells::symbol(w1))
}

// "J9 free cell (0)."
fn j9(cells: &mut [u64], log: &mut [u64], top: u16) -> Result<(), Refusal>
    requires { Suits log.old 2 top }
    ensures { Did (Top top) 2 J9 cells log result }
{
    let w0 = acts::own(cells, limits::H0);
    let c = (w0 / cells::SYMB % 65536) as u16;
    let x = acts::touch(cells, c)?;
    undo::refuse_if(cells::is_process(x), Refusal::WrongKind(c))?;
    undo::refuse_if(acts::reserved(top, c), Refusal::NotToBeFreed(c))?;
    acts::release(cells, log, c);
    acts::pop(cells, log, top)
}

fn move_to(cells: &mut [u64], log: &mut [u64], top: u16, w: u16) -> Result<(), Refusal>
    requires { Suits log.old 2 top }
    ensures { Did (Top top) 2 (move_to w) cells log result }
{
    let w0 = acts::own(cells, limits::H0);
    acts::own_store(cells, log, w, cells::symbol(w0));
    acts::pop(cells, log, top)
}

// W0 to Wn, one after another: what `act` does with each is `does`.
fn each_w<F: Fn(&mut [u64], &mut [u64], u16, u16) -> Result<(), Refusal>>(
    cells: &mut [u64],
    log: &mut [u64],
    top: u16,
    n: u16,
    act: F,
) -> Result<(), Refusal>
    ghost does: { ℕ → Act (Unit {0}) }
    requires room { (n ≤ 9) × Suits log.old 20 top }
    requires callable { (x y : _) (w : _) → Suits y.now 2 top → F.pre act x y top w }
    requires follows { (x y : _) (w : _) (r : _) (x' y' : _) → F.post act x y top w r x' y'
        → Did (Top top) 2 (does w) record { entry = x; exit = x' } record { entry = y; exit = y' } r }
    ensures { Did (Top top) 20 (each_w 0 n does) cells log result }
{
    for i in 0..=n {
        act(cells, log, top, limits::W0 + i)?;
    }
    Ok(())
}

// "J2n move (0)..(n) to W0..Wn, one after another, each popped when moved"
#[tactic(auto, unfolding(paper::specs::Process::J2n))]
fn j2n(cells: &mut [u64], log: &mut [u64], top: u16, n: u16) -> Result<(), Refusal>
    requires { (n ≤ 9) × Suits log.old 20 top }
    ensures { Did (Top top) 20 (J2n n) cells log result }
{
    each_w(cells, log, top, n, move_to)
}

// "J3n restore W0..Wn"
#[tactic(auto, unfolding(paper::specs::Process::J3n))]
fn j3n(cells: &mut [u64], log: &mut [u64], top: u16, n: u16) -> Result<(), Refusal>
    requires { (n ≤ 9) × Suits log.old 20 top }
    ensures { Did (Top top) 20 (J3n n) cells log result }
{
    each_w(cells, log, top, n, acts::restore)
}

// "J4n preserve them"
#[tactic(auto, unfolding(paper::specs::Process::J4n))]
fn j4n(cells: &mut [u64], log: &mut [u64], top: u16, n: u16) -> Result<(), Refusal>
    requires { (n ≤ 9) × Suits log.old 20 top }
    ensures { Did (Top top) 20 (J4n n) cells log result }
{
    each_w(
        cells,
        log,
        top,
        n,
        |cells, log, _, w| acts::preserve(cells, log, w),
    )
}

// "J5n is J4n then J2n"
fn j5n(cells: &mut [u64], log: &mut [u64], top: u16, n: u16) -> Result<(), Refusal>
    requires { (n ≤ 9) × Suits log.old 40 top }
    ensures { Did (Top top) 40 (J5n n) cells log result }
{
    j4n(cells, log, top, n)?;
    j2n(cells, log, top, n)
}

// J130, J132, J134: (0) has this tag.
fn tests_tag(cells: &mut [u64], log: &mut [u64], top: u16, tag: u8) -> Result<(), Refusal>
    requires { Suits log.old 1 top }
    ensures { Did (Top top) 1 (tests_tag tag) cells log result }
{
    let w0 = acts::own(cells, limits::H0);
    acts::tests::<1>(cells, log, top, (w0 / cells::Q % 256) as u8 == tag)
}

// J131: (0) names a data term.
fn j131(cells: &mut [u64], log: &mut [u64], top: u16) -> Result<(), Refusal>
    requires { Suits log.old 1 top }
    ensures { Did (Top top) 1 J131 cells log result }
{
    let w0 = acts::own(cells, limits::H0);
    let c = (w0 / cells::SYMB % 65536) as u16;
    let x = acts::touch(cells, c)?;
    acts::not_own(c)?;
    acts::tests::<1>(cells, log, top, cells::is_term(x))
}

// J136, J138: (0) gets this tag.
fn retags(cells: &mut [u64], log: &mut [u64], top: u16, tag: u8) -> Result<(), Refusal>
    requires { Suits log.old 2 top }
    ensures { Did (Top top) 2 (retags (tagged tag)) cells log result }
{
    let w0 = acts::own(cells, limits::H0);
    let x = Symbol {
        tag: tag,
        num: (w0 / cells::SYMB % 65536) as u16,
    };
    acts::gives1(cells, log, top, x)
}
