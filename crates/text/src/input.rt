// The arguments, and files and standard input read into buffers: none asks for memory, and none is longer than its buffer.
ghost use Rattle.std.specs.Prelude.{◌≡◌, ◌≤◌, [], length, take};
ghost use Rattle.text.specs.Out.{AddsLine};
ghost use Rattle.std.specs.Io.KnownBytes.{Consumes};

use crate::out::{Out, words};
use arrayvec::ArrayVec;
use std::env::FillError;
use std::fmt::Write as _;
use std::io::{Error, Read, Result, Write};
use std::rt::{Env, Files};
use std::{fmt, fs};

// How many arguments there are, the program's name among them.
pub fn argument_count(rt: &impl Env) -> usize {
    for i in 0..usize::MAX {
        if let Err(FillError::NotPresent) = rt.arg(i, &mut []) {
            return i;
        }
    }
    usize::MAX
}

// Puts an argument at the front of a buffer, and answers how long it is: 0 where it is longer than the buffer, or there is none. No Option, since it was
// always a function that cannot fail.
pub fn argument(rt: &impl Env, i: usize, buffer: &mut [u8]) -> usize
    ensures { result ≤ length buffer.new }
{
    rt.arg(i, buffer).unwrap_or(0)
}

// Reads until the buffer is full, the input ends or a read fails, and answers how many octets it put at the front of the buffer.
pub fn read_full<R: Read>(input: &mut R, buffer: &mut [u8]) -> usize
    ensures within { result ≤ length buffer.new }
    ensures octets { Consumes (R.remaining input.old) (R.remaining input.new) (take result buffer.new) }
{
    // Each read says itself how far it went.
    let mut end = 0;
    while end < buffer.len() {
        match input.read(&mut buffer[end..]) {
            Ok(0) => return end,
            Ok(n) => end += n,
            Err(_) => return end,
        }
    }
    end
}

// What the system says of a name that is not UTF-8.
const ILLEGAL_SEQUENCE: i32 = 84;

fn path_of(name: &[u8]) -> Result<&str> {
    std::str::from_utf8(name).map_err(|_| Error::from_raw_os_error(ILLEGAL_SEQUENCE))
}

// Opens the file of a name, which must be UTF-8.
pub fn open<R: Files>(rt: &R, name: &[u8]) -> Result<R::File> {
    fs::open(rt, path_of(name)?)
}

// Makes the file of a name, or empties the one that is there.
pub fn create<R: Files>(rt: &R, name: &[u8]) -> Result<R::File> {
    fs::create(rt, path_of(name)?)
}

// A value shown in a buffer; what does not fit is left out.
#[derive(Drop)]
struct Shown {
    text: ArrayVec<u8, 256>,
}

impl fmt::Write for Shown {
    fn write_str(&mut self, s: &str) -> fmt::Result {
        let fits = s.len().min(self.text.remaining_capacity());
        let _ = self.text.try_extend_from_slice(&s.as_bytes()[..fits]);
        Ok(())
    }
}

// The text before the last bracket, behind which std puts the error's number, and the blank before it.
fn without_number(text: &[u8]) -> &[u8] {
    match text.iter().rposition(|&b| b == b'(') {
        Some(bracket) if bracket > 0 => &text[..bracket - 1],
        _ => text,
    }
}

// Says in one line what failed, and why.
pub fn fail(out: &mut Out<impl Write>, what: &[u8], error: Error)
    ensures added { AddsLine out.old what.now out.new }
    ensures written { out.new.kept ≡ [] }
{
    let mut shown = Shown {
        text: ArrayVec::new(),
    };
    let _ = write!(shown, "{error}");
    words(out, what);
    words(out, b": ");
    words(out, without_number(shown.text.as_slice()));
    words(out, b"\n");
}

#[cfg(test)]
mod tests {
    use super::*;

    #[test]
    fn reads_what_fits(rt: HostRuntime) {
        let mut input: &[u8] = b"abcde";
        let mut buffer = [0u8; 3];
        assert_eq!(rt; read_full(&mut input, &mut buffer), 3);
        assert!(rt; buffer == *b"abc");
        assert_eq!(rt; read_full(&mut input, &mut buffer), 2);
        assert!(rt; buffer == *b"dec");
        assert_eq!(rt; read_full(&mut input, &mut buffer), 0);
    }

    // It gives one octet at a time, as a terminal or a pipe may.
    #[derive(Drop)]
    struct Slow<'a> {
        left: &'a [u8],
    }

    impl Read for Slow<'_> {
        fn read(&mut self, buf: &mut [u8]) -> Result<usize> {
            let n = buf.len().min(1);
            self.left.read(&mut buf[..n])
        }
    }

    #[test]
    fn reads_on_where_a_read_gives_less(rt: HostRuntime) {
        let mut input = Slow { left: b"abcde" };
        let mut buffer = [0u8; 3];
        assert_eq!(rt; read_full(&mut input, &mut buffer), 3);
        assert!(rt; buffer == *b"abc");
        assert_eq!(rt; read_full(&mut input, &mut buffer), 2);
        assert!(rt; buffer == *b"dec");
    }

    #[test]
    fn says_why_a_file_is_not_there(rt: HostRuntime) {
        let mut taken: Vec<u8> = Vec::new(rt.alloc());
        let mut out = Out::new(&mut taken);
        if let Err(error) = open(&rt, b"no folder/no file") {
            fail(&mut out, b"no folder/no file", error);
        }
        if let Err(error) = open(&rt, b"\xff") {
            fail(&mut out, b"\xff", error);
        }
        drop(out);
        assert!(rt;
            taken.as_slice()
                == b"no folder/no file: No such file or directory\n\xff: Invalid or incomplete multibyte or wide character\n".as_slice()
        );
    }
}
