// What no clause says: where a line ends, which reads are tried again, and what is written.
use crate::answer::{Outcome, Unanswered};
use crate::image::{Bytes, MOST_BYTES};
use crate::input::{answer_in_fixed_memory, answer_lines, read_line};
use crate::line::{Line, MOST_NUMBERS};
use crate::number::Words;
use crate::records::{MOST_RECORDS, Records};
use record::Record;
use std::alloc::{Allocator, Global};
use std::cell::Cell;
use std::fmt::Display;
use std::io;
use std::io::{BufRead, ErrorKind, Lines, Read};
use std::test::Fail;

#[test]
fn lines_end_with_a_newline_or_the_input(rt: HostRuntime) -> Result<(), Fail> {
    let mut input = b"one\n\nlast".as_slice();
    let mut room = [0; 163_840];
    for want in [b"one\n".as_slice(), b"\n".as_slice(), b"last".as_slice()] {
        let length = read_line(&mut input, &mut room)?.ok_or("a line")?;
        assert_eq!(rt; &room[..length], want);
    }
    assert!(rt; read_line(&mut input, &mut room)?.is_none());
    Ok(())
}

// Packets of 8,192 bytes, of which every other read is interrupted; what a read has no room for is lost.
#[derive(Drop)]
struct Packets<'a> {
    bytes: &'a [u8],
    interrupted: bool,
}

impl<'a> Packets<'a> {
    fn next(&mut self) -> &'a [u8] {
        let (packet, rest) = self.bytes.split_at(self.bytes.len().min(8_192));
        self.bytes = rest;
        packet
    }

    fn interrupt(&mut self) -> io::Result<()> {
        self.interrupted = !self.interrupted;
        if self.interrupted {
            return Err(io::Error::from(ErrorKind::Interrupted));
        }
        Ok(())
    }
}

impl Read for Packets<'_> {
    fn read(&mut self, buf: &mut [u8]) -> io::Result<usize> {
        self.interrupt()?;
        self.next().read(buf)
    }
}

impl BufRead for Packets<'_> {
    fn fill_buf(&mut self) -> io::Result<&[u8]> {
        self.interrupt()?;
        Ok(&self.bytes[..self.bytes.len().min(1)])
    }

    fn consume(&mut self, _amount: usize) {
        self.next();
    }
}

// What a program is given: packets to read, and digits in place of what it writes.
#[derive(Drop)]
struct Given<'a, R> {
    rt: &'a R,
    input: &'a [u8],
    written: Cell<u32>,
}

impl<R: AllocGlobal> Alloc for Given<'_, R> {
    type A = Global;

    fn alloc(&self) -> Global {
        self.rt.alloc()
    }
}

impl<R> Print for Given<'_, R> {
    fn print<D: Display + Drop>(&self, _value: D) -> io::Result<()> {
        Ok(())
    }

    fn println<D: Display + Drop>(&self, _value: D) -> io::Result<()> {
        Ok(())
    }

    fn write_all(&self, bytes: &[u8]) -> io::Result<()> {
        let digit = match bytes {
            b"\n" => 1,
            b"?\n" => 2,
            _ => 3,
        };
        self.written.set(self.written.get().saturating_mul(10).saturating_add(digit));
        Ok(())
    }
}

impl<'a, R> Input for Given<'a, R> {
    type Reader = Packets<'a>;

    fn read_line<A: Allocator + Clone>(&self, buf: &mut String<A>) -> io::Result<usize> {
        self.reader().read_line(buf)
    }

    fn lines<A: Allocator>(&self, alloc: A) -> Lines<Packets<'a>, A> {
        self.reader().lines(alloc)
    }

    fn reader(&self) -> Packets<'a> {
        Packets {
            bytes: self.input,
            interrupted: false,
        }
    }
}

// One answer for each line that is to be met, and an error of its own for the last.
fn answer(line: Line<'_>) -> Outcome {
    match line.text {
        b"one\n" | b"" => Ok(()),
        b"none\n" => Err(Unanswered::NoCall),
        b"last\n" => Err(Unanswered::Failed(io::Error::from(ErrorKind::NotFound))),
        _ => Err(Unanswered::Failed(io::Error::from(ErrorKind::InvalidData))),
    }
}

// The first way comes to the last line, with each before it answered; the second ends where it is interrupted, with nothing written.
#[test]
fn an_interrupted_read_is_tried_again_or_ends_it(rt: HostRuntime) -> Result<(), Fail> {
    let mut input = Vec::new(rt.alloc());
    input.extend_from_slice(b"one\nnone\n")?;
    input.extend_from_slice(vec![in rt.alloc(); b' '; 200_000]?.as_slice())?;
    input.extend_from_slice(b"\nlast\n")?;
    let given = Given {
        rt: &rt,
        input: input.as_slice(),
        written: Cell::new(0),
    };
    let error = answer_in_fixed_memory(&given, answer)
        .err()
        .ok_or("an error")?;
    assert!(rt; error.kind() == ErrorKind::Interrupted);
    assert_eq!(rt; given.written.get(), 0);
    let error = answer_lines(&given, answer).err().ok_or("an error")?;
    assert!(rt; error.kind() == ErrorKind::NotFound);
    assert_eq!(rt; given.written.get(), 121);
    Ok(())
}

// The line's length with its newline, how much of it is kept, and that the next line is read whole.
#[test]
fn a_line_that_is_too_long_is_empty(rt: HostRuntime) -> Result<(), Fail> {
    let mut room = [0; 163_840];
    for (length, kept) in [(163_840, 163_840), (163_841, 0), (200_000, 0)] {
        let mut bytes = vec![in rt.alloc(); b' '; length]?;
        bytes.pop();
        bytes.extend_from_slice(b"\nnext")?;
        let mut input = bytes.as_slice();
        let length = read_line(&mut input, &mut room)?.ok_or("a line")?;
        assert_eq!(rt; length, kept);
        let next = read_line(&mut input, &mut room)?.ok_or("a line")?;
        assert_eq!(rt; &room[..next], b"next".as_slice());
    }
    Ok(())
}

#[test]
fn fields_are_what_they_say(rt: HostRuntime) -> Result<(), Fail> {
    let mut line = Line::new(b"\x0blay 4294967296\t7 8 1 0 1 2 3 4 5 0aF0 - 9 10\r\n");
    assert_eq!(rt; line.field().ok_or("a field")?, b"lay".as_slice());
    assert_eq!(rt; line.compared()?, u32::MAX);
    let mut words = [0; 2];
    line.words(&mut words)?;
    assert_eq!(rt; words, [7, 8]);
    let mut table = [Record::idle(); MOST_RECORDS];
    assert_eq!(rt; line.table(&mut table)?, 1);
    assert_eq!(rt; table[0].second, 5);
    let mut room = [0; MOST_BYTES];
    let count = line.bytes(&mut room)?;
    assert_eq!(rt; &room[..count], b"\x0a\xf0".as_slice());
    assert_eq!(rt; line.bytes(&mut room)?, 0);
    let mut room = [0; MOST_NUMBERS];
    let count = line.last_words(&mut room)?;
    assert_eq!(rt; &room[..count], [9, 10].as_slice());
    line.end()?;
    Ok(())
}

#[test]
fn what_is_written(rt: HostRuntime) -> Result<(), Fail> {
    let table = [Record::begun(2, 7)];
    let text = format!(in rt.alloc(); "0{}{}", Words(&[3, 4]), Records(&table))?;
    assert_eq!(rt; text.as_str(), "0 3 4 2 1 0 7 0 0");
    let text = format!(in rt.alloc(); "{}{}", Bytes(b"\x0a\xf0"), Bytes(b""))?;
    assert_eq!(rt; text.as_str(), " 0af0 -");
    Ok(())
}
