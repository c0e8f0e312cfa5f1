// strip-run: reads a schedule file from standard input and prints its listing, or `refused` and the number. It has room for one byte
// more than the longest file has, so that a longer one is seen to be too long.
#![tactic(auto)]

ghost use Rattle.std.specs.Prelude.{◌≡◌, ◌≤◌, length, IfOk};

use schedule::LISTING_BOUND;
use std::io;
use std::io::Read;

// Reads until the room is full or the input ends, and answers how many bytes were read. A read that fails is answered as it came, and the
// room then holds what was read before it. Each read is offered all the room that is left, as neither read_to_end nor copy does: an input
// that keeps packets apart drops what a smaller one has no place for.
fn read_full(input: &mut impl Read, room: &mut [u8]) -> io::Result<usize>
    ensures within { IfOk result (λ n. n ≤ length room.new) }
    ensures kept { length room.new ≡ length room.old }
{
    let mut n = 0;
    while n < room.len() {
        let got = input.read(&mut room[n..])?;
        if got == 0 {
            return Ok(n);
        }
        n += got;
    }
    Ok(n)
}

// In fixed memory: the program has no heap, and so can't run out of it.
fn main(rt: HostRuntime) -> io::Result<()> {
    let mut file = [0; 16_395];
    let mut strip = [0; 4096];
    let mut out = [0; LISTING_BOUND];
    let read = read_full(&mut rt.stdin(), &mut file)?;
    match schedule::list(&file[..read], &mut strip, &mut out) {
        Ok(length) => rt.write_all(&out[..length]),
        Err(refusal) => println!(rt; "refused {}", refusal.number()),
    }
}
