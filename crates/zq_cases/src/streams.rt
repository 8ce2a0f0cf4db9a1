use crate::call::Given;
use crate::plan::Broken;
use crate::wanting::run_without_memory;
use std::alloc::{AllocError, Global};
use std::io;
use std::io::{Read, Write};
use zq_top::serve;

/// A stream that fails at each call.
#[derive(Drop)]
struct Failing;

impl Read for Failing {
    fn read(&mut self, _buf: &mut [u8]) -> io::Result<usize> {
        Err(io::Error::from(io::ErrorKind::BrokenPipe))
    }
}

impl Write for Failing {
    fn write(&mut self, _buf: &[u8]) -> io::Result<usize> {
        Err(io::Error::from(io::ErrorKind::BrokenPipe))
    }

    fn flush(&mut self) -> io::Result<()> {
        Ok(())
    }
}

fn given(status: u8, text: Vec<u8>) -> Given {
    Given {
        status,
        text,
        readings: 0,
        left: 0,
    }
}

/// The program's call over streams, as its main makes it, where this is broken.
pub(crate) fn call_over_streams(
    alloc: Global,
    words: Vec<String>,
    octets: &[u8],
    broken: Option<Broken>,
) -> Given {
    let text = Vec::new(alloc);
    match broken {
        None => {
            let ended = serve(alloc, Ok(words), octets, text);
            given(ended.code, ended.writer)
        }
        Some(Broken::Reader) => {
            let ended = serve(alloc, Ok(words), Failing, text);
            given(ended.code, ended.writer)
        }
        Some(Broken::Writer) => {
            let ended = serve(alloc, Ok(words), octets, Failing);
            given(ended.code, text)
        }
        Some(Broken::Words) => {
            let ended = serve(alloc, Err(AllocError), octets, text);
            given(ended.code, ended.writer)
        }
        Some(Broken::Core) => run_without_memory(alloc, octets),
    }
}
