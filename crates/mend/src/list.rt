// The list: a file that is new, and that begins with `unfinished` until all is written.
use std::env::{Env, FillError};
use std::fs::{OpenFile, OpenOptions};
use std::io::{ErrorKind, Seek, Write};
use std::rt::Files;
use std::{fs, io};

// As the system has it.
const NAME_TOO_LONG: i32 = 36;

// Whether it is named, and nothing else.
pub(crate) fn is_named(rt: &impl Env) -> bool {
    let mut byte = [0u8; 1];
    let first = rt.arg(1, &mut byte);
    let second = rt.arg(2, &mut byte);
    !is_absent(first) && is_absent(second)
}

fn is_absent(argument: Result<usize, FillError>) -> bool {
    matches!(argument, Err(FillError::NotPresent))
}

// Its name, which stands in the space then.
pub(crate) fn name_in<'a>(rt: &impl Env, space: &'a mut [u8; 4_096]) -> io::Result<&'a str> {
    let Ok(n) = rt.arg(1, space) else {
        return Err(io::Error::from_raw_os_error(NAME_TOO_LONG));
    };
    match std::str::from_utf8(&space[..n]) {
        Ok(name) => Ok(name),
        Err(_) => Err(io::Error::new(ErrorKind::InvalidInput, "its name is no UTF-8")),
    }
}

// Makes it.
pub(crate) fn make<R: Files>(rt: &R, name: &str) -> io::Result<R::File> {
    OpenOptions::new()
        .write(true)
        .create_new(true)
        .open(rt, name)
}

// Writes what stands in the place of its header until all is written.
pub(crate) fn begin(list: &mut impl Write) -> io::Result<()> {
    list.write_all(b"unfinished\r\n")
}

// Writes the header over that, and waits until all is where it belongs: what is lost then is told here, and not where the
// list is closed.
pub(crate) fn finish(list: &mut (impl Write + Seek + OpenFile)) -> io::Result<()> {
    list.rewind()?;
    list.write_all(b"line,field\r\n")?;
    list.sync_all()
}

// Removes it.
pub(crate) fn remove(rt: &impl Files, name: &str) {
    let _ = fs::remove_file(rt, name);
}
