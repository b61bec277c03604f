// Printing: the text of a line, J152 and J153. A line goes to the output, line feed included, once nothing of its process can be refused.
#![tactic(auto)]

ghost use Rattle.std.specs.Prelude.{◌≡◌, [], ◌∷◌, ◌+◌, ◌<◌, ◌≤◌, length, take};
ghost use Rattle.std.proofs.Math.Seq.{paste};
ghost use Rattle.paper.specs.Limits.{cell_digits, longest_symbol_line, longest_line};
ghost use Rattle.paper.specs.Region.{letters_of};
ghost use Rattle.paper.specs.Print.{digits_by, digits, integer_text, hex_digit, hex_by, term_text, cell_text, local_text, symbol_text};
ghost use Rattle.paper.specs.Program.{answer_line};
ghost use Rattle.paper.specs.Process.{J152, J153, perform, then as and_then, goes_on};
ghost use Rattle.cells.specs.Layout.{value_of, term_of};
ghost use Rattle.regions.specs.Lent.{rows_of, Told};
ghost use Rattle.undo.specs.Log.{Room};
ghost use Rattle.printing.specs.Text.{Writes, Text, Puts};
ghost use Rattle.printing.specs.Telling.{print_pop, Prints};

use paper::{Refusal, Symbol, limits};
use regions::Table;

// The scratch for a line.
type Line = [u8; limits::LONGEST_LINE];

// The decimal digits of n, or where k are too few its last k.
fn digits(line: &mut Line, at: usize, k: usize, n: u32) -> usize
    requires { at + k ≤ longest_line }
    ensures { Writes line.old at (digits_by k n) line.new result }
{
    if k == 0 {
        return at;
    }
    if n < 10 {
        line[at] = b'0' + (n as u8);
        return at + 1;
    }
    let end = digits(line, at, k - 1, n / 10);
    line[end] = b'0' + ((n % 10) as u8);
    end + 1
}

// The digits of a cell's number.
fn number(line: &mut Line, at: usize, n: u16) -> usize
    requires { at + cell_digits ≤ longest_line }
    ensures { Writes line.old at (digits n) line.new result × (result ≤ at + cell_digits) }
{
    digits(line, at, limits::CELL_DIGITS, u32::from(n))
}

// The integer v - 2^31.
fn integer_text(line: &mut Line, v: u32) -> usize
    ensures { Text longest_line line.old (integer_text (value_of v)) line.new result }
{
    if v < cells::ZERO {
        line[0] = b'-';
        return digits(line, 1, limits::MOST_DIGITS, cells::ZERO - v);
    }
    digits(line, 0, limits::MOST_DIGITS, v - cells::ZERO)
}

// A hex digit, in capitals.
fn hex_digit(d: u8) -> u8
    requires { d < 16 }
    ensures { result ≡ hex_digit d }
{
    if d < 10 {
        return b'0' + d;
    }
    b'A' + (d - 10)
}

// The last k hex digits of n. `digits` stops at the first, and this keeps leading zeros: no function of a base is both.
fn hex(line: &mut Line, at: usize, k: usize, n: u32) -> usize
    requires { at + k ≤ longest_line }
    ensures { Writes line.old at (hex_by k n) line.new result }
{
    if k == 0 {
        return at;
    }
    let end = hex(line, at, k - 1, n / 16);
    line[end] = hex_digit((n % 16) as u8);
    end + 1
}

// A data term of either sort.
fn term_text(line: &mut Line, x: u64) -> usize
    ensures { Text longest_line line.old (term_text (term_of x)) line.new result }
{
    if cells::is_integer(x) {
        return integer_text(line, (x % cells::FLOATING) as u32);
    }
    hex(line, 0, limits::HEX_DIGITS, (x % cells::FLOATING) as u32)
}

// A cell by its letter and number, or by its number alone.
fn cell_text(line: &mut Line, table: &Table, c: u16) -> usize
    ensures { Text longest_symbol_line line.old (cell_text c (letters_of (rows_of table.now) c)) line.new result }
{
    match regions::letters_of(table, c) {
        Some((letter, n)) => {
            line[0] = letter;
            number(line, 1, n)
        }
        None => number(line, 0, c),
    }
}

// "`9-` and its number"
fn local_text(line: &mut Line, c: u16) -> usize
    ensures { Text longest_symbol_line line.old (local_text c) line.new result }
{
    line[0] = b'9';
    line[1] = b'-';
    number(line, 2, c)
}

// A symbol by its tag: local; regional; internal.
fn symbol_text(line: &mut Line, table: &Table, x: Symbol) -> usize
    ensures { Text longest_symbol_line line.old (symbol_text (rows_of table.now) x) line.new result }
{
    match x.tag {
        Symbol::LOCAL => local_text(line, x.num),
        Symbol::REGIONAL => cell_text(line, table, x.num),
        _ => number(line, 0, x.num),
    }
}

// "then one line feed"
fn end_line(line: &mut Line, at: usize) -> usize
    requires { at < longest_line }
    ensures { Writes line.old at (10 ∷ []) line.new result }
{
    line[at] = b'\n';
    at + 1
}

// The line goes out, from byte `at` on.
fn write_line(out: &mut [u8], at: usize, line: &Line, len: usize) -> usize
    requires { (at + len ≤ length out.old) × (len ≤ longest_line) }
    ensures { (result ≡ at + len) × (out.new ≡ paste out.old at line.now len) }
{
    out[at..at + len].copy_from_slice(&line[..len]);
    at + len
}

// A number in a line of its own, from byte `at` on.
pub fn number_line(out: &mut [u8], at: usize, n: u32) -> usize
    requires { at + longest_line ≤ length out.old }
    ensures { Puts out.old at (answer_line n) out.new result }
{
    let mut line: Line = [0; limits::LONGEST_LINE];
    let end = digits(&mut line, 0, limits::MOST_DIGITS, n);
    let len = end_line(&mut line, end);
    write_line(out, at, &line, len)
}

// The first n bytes are printed as a line, and H0 popped: the line goes out when both are sure.
fn print(
    cells: &mut [u64],
    log: &mut [u64],
    table: &Table,
    out: &mut [u8],
    at: usize,
    line: &mut Line,
    n: usize,
) -> Result<usize, Refusal>
    requires { Room log.old 1 × Told table.now × (at ≤ length out.old) × (n < longest_line) }
    ensures { Prints (print_pop (take n line.old)) tt cells log table out at result }
{
    let len = end_line(line, n);
    undo::refuse_if(out.len() - at < len, Refusal::NoRoom)?;
    acts::pop(cells, log, table[0] as u16)?;
    Ok(write_line(out, at, line, len))
}

// "J152 prints a symbol"
fn j152(
    cells: &mut [u64],
    log: &mut [u64],
    table: &Table,
    out: &mut [u8],
    at: usize,
) -> Result<usize, Refusal>
    requires { Room log.old 1 × Told table.now × (at ≤ length out.old) }
    ensures { Prints J152 tt cells log table out at result }
{
    let w = acts::own(cells, limits::H0);
    let mut line: Line = [0; limits::LONGEST_LINE];
    let n = symbol_text(&mut line, table, cells::symbol(w));
    print(cells, log, table, out, at, &mut line, n)
}

// "J153 an integer", or a floating term
fn j153(
    cells: &mut [u64],
    log: &mut [u64],
    table: &Table,
    out: &mut [u8],
    at: usize,
) -> Result<usize, Refusal>
    requires { Room log.old 1 × Told table.now × (at ≤ length out.old) }
    ensures { Prints J153 tt cells log table out at result }
{
    let w = acts::own(cells, limits::H0);
    let x = acts::term_at(cells, cells::symbol(w).num)?;
    let mut line: Line = [0; limits::LONGEST_LINE];
    let n = term_text(&mut line, x);
    print(cells, log, table, out, at, &mut line, n)
}

// J152 or J153.
pub fn on_lines(
    cells: &mut [u64],
    log: &mut [u64],
    table: &Table,
    out: &mut [u8],
    at: usize,
    j: u16,
) -> Result<usize, Refusal>
    requires { Room log.old 1 × Told table.now × (at ≤ length out.old) × (152 ≤ j) × (j ≤ 153) }
    ensures { Prints (perform j) (and_then goes_on) cells log table out at result }
{
    if j == 152 {
        return j152(cells, log, table, out, at);
    }
    j153(cells, log, table, out, at)
}
