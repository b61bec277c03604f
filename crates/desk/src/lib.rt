// What the program does, from the bytes of its input to the bytes that it prints: document 01, "What is built".
#![tactic(auto)]

ghost use Rattle.std.specs.Prelude.{◌≡◌, ◌++◌, ◌-◌, ◌≤◌, min, length, take, drop, replicate};
ghost use Rattle.paper.specs.Limits.{largest_budget, program_deck, program_room, longest_printout};
ghost use Rattle.paper.specs.Answer.{load_number};
ghost use Rattle.paper.specs.Program.{answer_line, printout};
ghost use Rattle.machine.specs.Numbers.{run_on};
ghost use Rattle.desk.specs.Page.{printed, run_text};

use paper::{LoadAnswer, limits};
use regions::Regions;

pub type Page = [u8; limits::LONGEST_PRINTOUT];

// The first n bytes, and zeros.
#[derive(Clone, Copy)]
pub struct Printout {
    pub n: usize,
    pub bytes: Page,
}

// The lines are the first `len` bytes of the page; "then the answer number in decimal and a line feed".
fn answered(page: Page, len: usize, answer: u8) -> Printout
    requires { (len ≤ program_room) × (length page ≡ longest_printout) × (drop len page ≡ replicate (longest_printout - len) 0) }
    ensures { result ≡ printed (take len page ++ answer_line answer) }
{
    let mut bytes = page;
    let n = printing::number_line(&mut bytes, len, answer as u32);
    Printout { n: n, bytes: bytes }
}

// A deck that is not loaded has no lines.
fn not_loaded(answer: LoadAnswer) -> Printout
    ensures { result ≡ printed (answer_line (load_number answer)) }
{
    let page = [0; limits::LONGEST_PRINTOUT];
    answered(page, 0, answer.number())
}

// "with budget 1,000,000 and 16,384 bytes of output room"
fn run(cells: &mut [u64], regions: Regions) -> Printout
    ensures { result ≡ printed (run_text (run_on regions largest_budget cells.old (replicate program_room 0))) }
{
    let mut page = [0; limits::LONGEST_PRINTOUT];
    let room = limits::PROGRAM_ROOM;
    let r = machine::run(cells, regions, limits::LARGEST_BUDGET, &mut page[..room]);
    let a = r.answer;
    answered(page, r.len, a.number())
}

// How many bytes of the input are read: "It reads at most 16,384 deck bytes."
fn deck_size(given: usize) -> usize
    ensures { result ≡ min given program_deck }
{
    if given < limits::PROGRAM_DECK {
        return given;
    }
    limits::PROGRAM_DECK
}

// "reads a deck from standard input, runs it in 4,096 cells .. and prints its lines, then the answer number"
pub fn replay(input: &[u8]) -> Printout
    ensures { result ≡ printed (printout input.now) }
{
    let n = deck_size(input.len());
    let mut cells = [0u64; limits::PROGRAM_CELLS];
    let l = deck::load(&input[..n], &mut cells);
    let a = l.answer;
    let regions = l.regions;
    match a {
        LoadAnswer::Loaded => run(&mut cells, regions),
        _ => not_loaded(a),
    }
}
