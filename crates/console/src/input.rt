// The lines of standard input, each answered by one line.
ghost use Rattle.std.specs.Prelude.{◌≡◌, ◌≤◌, length, IfOk, IfSome, vec_len};

use crate::ahead::Ahead;
use crate::answer::{Outcome, Unanswered};
use crate::line::Line;
use std::alloc::Global;
use std::io;
use std::io::{BufRead, BufReader, Read};

// The longest line writes an image: 4,097 words and 17 records, each number a blank and up to 20 digits, and 33,352 bytes, which is more
// than the largest image has, so that one that is too long can be shown.
const LONGEST: usize = 163_840;

// No more bytes are read as one line.
const MOST_READ: usize = 4_294_967_295;

fn keep(room: &mut [u8], at: usize, byte: u8) {
    if let Some(place) = room.get_mut(at) {
        *place = byte;
    }
}

// How many bytes a line has with its newline; none at the end of the input. What there is no room for is read and counted, and not kept.
fn read_all(input: &mut impl Read, room: &mut [u8]) -> io::Result<usize> {
    let mut byte = [0];
    for count in 0..MOST_READ {
        if input.read(&mut byte)? == 0 {
            return Ok(count);
        }
        keep(room, count, byte[0]);
        if byte[0] == b'\n' {
            return Ok(count + 1);
        }
    }
    Ok(MOST_READ)
}

// A line with its newline, into a room: how many bytes, none at the end of the input. Where there is no room for a line, an empty one stands
// for it. A read that fails is answered as it came.
pub fn read_line(input: &mut impl Read, room: &mut [u8]) -> io::Result<Option<usize>>
    ensures within { IfOk result (λ line. IfSome line (λ count. count ≤ length room.new)) }
    ensures kept { length room.new ≡ length room.old }
{
    let count = read_all(input, room)?;
    if count == 0 {
        return Ok(None);
    }
    if room.len() < count {
        return Ok(Some(0));
    }
    Ok(Some(count))
}

// The same into a vector, which takes no more than one byte past the longest line. A read that was interrupted is tried again.
fn line_on_heap(alloc: Global, input: &mut impl BufRead) -> io::Result<Option<Vec<u8>>>
    ensures { IfOk result (λ line. IfSome line (λ bytes. vec_len bytes ≤ 163840)) }
{
    let mut input = input.take(MOST_READ as u64);
    let mut line = Vec::new(alloc);
    input.by_ref().take(163_841).read_until(b'\n', &mut line)?;
    if line.is_empty() {
        return Ok(None);
    }
    if LONGEST < line.len() {
        if line.last() != Some(&b'\n') {
            input.skip_until(b'\n')?;
        }
        line.clear();
    }
    Ok(Some(line))
}

// Answers each line. It reads ahead, into a buffer on the heap, and a read that was interrupted is tried again. Public for a program that
// has a heap, and asks that what answers a line may be called on any. This loop and the next end at a number that no input reaches, for a
// proved loop has to end; they stand side by side, since one for both costs the text doors instructions (measured).
pub fn answer_lines<R, F>(rt: &R, answer: F) -> io::Result<()>
where
    R: Input + Print + AllocGlobal,
    F: Fn(Line<'_>) -> Outcome,
    requires { F.IsAlwaysCallable answer }
{
    let mut input = BufReader::new(rt.alloc(), rt.reader())?;
    for _ in 0..u64::MAX {
        let Some(line) = line_on_heap(rt.alloc(), &mut input)? else {
            return Ok(());
        };
        match answer(Line::new(&line)) {
            Ok(()) => rt.write_all(b"\n")?,
            Err(Unanswered::NoCall) => rt.write_all(b"?\n")?,
            Err(Unanswered::Failed(e)) => return Err(e),
        }
    }
    Ok(())
}

// The same in fixed memory: no heap, and no byte read ahead that the reader would not give back. A read that was interrupted ends it. Public
// for the text doors, which hand over what answers a line, and asks that it may be called on a line of up to 163,840 bytes.
pub fn answer_in_fixed_memory<R, F>(rt: &R, answer: F) -> io::Result<()>
where
    R: Input + Print,
    F: Fn(Line<'_>) -> Outcome,
    requires { (line : _) → length line.text.now ≤ 163840 → F.pre answer line }
{
    let mut input = Ahead(rt.reader());
    let mut room = [0; LONGEST];
    for _ in 0..u64::MAX {
        let Some(count) = read_line(&mut input, &mut room)? else {
            return Ok(());
        };
        match answer(Line::new(&room[..count])) {
            Ok(()) => rt.write_all(b"\n")?,
            Err(Unanswered::NoCall) => rt.write_all(b"?\n")?,
            Err(Unanswered::Failed(e)) => return Err(e),
        }
    }
    Ok(())
}
