// A reader each of whose reads is served by what it has read ahead, however few bytes are asked for.
use std::io;
use std::io::{BufRead, Read};

#[derive(Drop)]
pub struct Ahead<R>(pub R);

impl<R: BufRead> Read for Ahead<R> {
    fn read(&mut self, buf: &mut [u8]) -> io::Result<usize> {
        let ahead = self.0.fill_buf()?;
        let count = ahead.len().min(buf.len());
        for (to, from) in buf.iter_mut().zip(ahead) {
            *to = *from;
        }
        self.0.consume(count);
        Ok(count)
    }
}
