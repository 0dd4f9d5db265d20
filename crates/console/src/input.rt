// A trace on standard input.
ghost use Rattle.std.specs.Prelude.{◌≤◌, ◌≡◌, IfOk, length};

use std::io;
use std::io::{ErrorKind, Read};
use text::word::same_text;

// What the input begins with: a trace's header, or anything else.
#[derive(Clone, Copy)]
pub enum Header {
    Right,
    Wrong,
}

// An input that ends before is no trace.
pub fn read_header(input: &mut impl Read) -> io::Result<Header> {
    let mut head = [0u8; 64];
    match input.read_exact(&mut head) {
        Ok(()) => {}
        Err(e) if e.kind() == ErrorKind::UnexpectedEof => return Ok(Header::Wrong),
        Err(e) => return Err(e),
    }
    if same_text(
        &head,
        b"kind,time,cwnd,inflight,number,bytes,acked,lost,bw,rtt,probing\r\n",
    ) {
        return Ok(Header::Right);
    }
    Ok(Header::Wrong)
}

// A buffer and how much of it is held: nothing is allocated.
// Reads a piece behind the bytes held, and answers how long it is.
pub fn read_piece(input: &mut impl Read, buf: &mut [u8], held: usize) -> io::Result<usize>
    requires { (held ≤ 4097) × (69633 ≤ length buf.old) }
    ensures got { IfOk result (λ n. n ≤ 65536) }
    ensures same_length { length buf.new ≡ length buf.old }
{
    let most = held + 65_536;
    input.read(&mut buf[held..most])
}
