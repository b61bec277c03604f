// The program: a deck from standard input, and on standard output what `desk::replay` makes of it.
#![tactic(auto)]

ghost use Rattle.std.specs.Prelude.{◌≤◌, length};

use desk::Printout;
use paper::limits;
use std::io;
use std::io::Read;

// Reads until the buffer is full, the input ends or a read fails: how many bytes it put at the start of the buffer.
// The input says where it ends, and a read may give a part: no range or iterator does.
fn read_full(stdin: &mut impl Read, bytes: &mut [u8]) -> usize
    ensures { result ≤ length bytes.new }
{
    let mut done = 0;
    while done < bytes.len()
        && let Ok(n) = stdin.read(&mut bytes[done..])
        && 0 < n
    {
        done += n;
    }
    done
}

fn main(rt: HostRuntime) -> io::Result<()> {
    let mut input = [0u8; limits::PROGRAM_DECK];
    let read = read_full(&mut rt.reader(), &mut input);
    let Printout { n, bytes } = desk::replay(&input[..read]);
    rt.write_all(&bytes[..n])
}
