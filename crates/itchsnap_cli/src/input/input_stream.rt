//! A file, or standard input.
ghost use Rattle.itchsnap_cli.specs.Opening.{stream_remaining};

use std::io::{self, Read};

/// An opened file, or standard input. Reading it yields the bytes of either.
#[derive(Drop)]
pub enum InputStream<F, I> {
    File(F),
    Standard(I),
}

impl<F: Read, I: Read> Read for InputStream<F, I> {
    ghost remaining = { stream_remaining F.remaining I.remaining };

    fn read(&mut self, buf: &mut [u8]) -> io::Result<usize> {
        match self {
            InputStream::File(file) => file.read(buf),
            InputStream::Standard(input) => input.read(buf),
        }
    }
}
