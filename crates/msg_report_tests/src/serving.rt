// Lines that are served one by one: what no clause says of when they are asked for.
ghost use Rattle.std.specs.Prelude.{None};

use crate::equal::{Have, expect_eq};
use crate::sparing::workers;
use msg_json::{PutFault, Sink, StdSource};
use msg_serve::serve_bytes;
use std::io;
use std::io::{BufRead, Error, ErrorKind, Read};
use std::process::Abort;
use std::sync::atomic::{AtomicU64, Ordering};
use std::thread::Threads;

/// Shows lines, at most `at_once` bytes at a time. It begins a line once as many line feeds were
/// put as lines were read, and fails if it is asked for one before.
#[derive(Drop)]
struct InTurn<'a> {
    lines: &'a [&'a [u8]],
    line: usize,
    read: usize,
    at_once: usize,
    answered: &'a AtomicU64,
}

impl InTurn<'_> {
    /// What comes next of the line.
    fn shown(&self) -> &[u8] {
        let Some(line) = self.lines.get(self.line) else {
            return &[];
        };
        let from = self.read.min(line.len());
        let to = from.saturating_add(self.at_once).min(line.len());
        &line[from..to]
    }
}

impl Read for InTurn<'_> {
    fn read(&mut self, _buf: &mut [u8]) -> io::Result<usize> {
        Err(Error::from(ErrorKind::Other))
    }
}

impl BufRead for InTurn<'_> {
    fn fill_buf(&mut self) -> io::Result<&[u8]> {
        if self.read == 0 && self.answered.load(Ordering::SeqCst) != self.line as u64 {
            return Err(Error::from(ErrorKind::Other));
        }
        Ok(self.shown())
    }

    fn consume(&mut self, amount: usize) {
        self.read = self.read.saturating_add(amount);
        if self.line < self.lines.len() && self.read >= self.lines[self.line].len() {
            self.line += 1;
            self.read = 0;
        }
    }
}

/// Takes all, and counts the line feeds of it.
#[derive(Drop)]
struct CountsLines<'a> {
    lines: &'a AtomicU64,
}

impl Sink for CountsLines<'_> {
    ghost contents = { λ _. None };

    ghost failures = { λ _. 0 };

    fn put(&mut self, piece: &[u8]) -> Result<usize, PutFault> {
        let feeds = piece.iter().filter(|byte| **byte == b'\n').count();
        self.lines.fetch_add(feeds as u64, Ordering::SeqCst);
        Ok(piece.len())
    }
}

/// Twelve readers of one type.
const READERS: &str = r#"{"types":[["hit",10000]],"systems":[
    {"name":"a","ops":[["read","hit"]]},{"name":"b","ops":[["read","hit"]]},
    {"name":"c","ops":[["read","hit"]]},{"name":"d","ops":[["read","hit"]]},
    {"name":"e","ops":[["read","hit"]]},{"name":"f","ops":[["read","hit"]]},
    {"name":"g","ops":[["read","hit"]]},{"name":"h","ops":[["read","hit"]]},
    {"name":"i","ops":[["read","hit"]]},{"name":"j","ops":[["read","hit"]]},
    {"name":"k","ops":[["read","hit"]]},{"name":"l","ops":[["read","hit"]]}],"frames":[]}"#;

/// Each line is answered by one line before the next is asked for, and then the readers are told.
fn expect_in_turn<R: Threads + Sync + Abort + AllocGlobal>(
    rt: &R,
    lines: &[&[u8]],
    at_once: usize,
) {
    let answered = AtomicU64::new(0);
    let mut input = StdSource::new(InTurn {
        lines,
        line: 0,
        read: 0,
        at_once,
        answered: &answered,
    });
    let mut output = CountsLines { lines: &answered };
    let on = workers(rt, 2);
    let came = serve_bytes(rt, READERS.as_bytes(), on, &mut input, &mut output);
    expect_eq(rt, came, Ok(()));
    expect_eq(rt, answered.load(Ordering::SeqCst), lines.len() as u64 + 1);
    drop(input);
    drop(output);
}

/// A list of so many posts, which twelve readers are given: 1,024 are answered by 135,000 bytes.
fn posts<R: Abort + AllocGlobal>(rt: &R, count: usize) -> Vec<u8> {
    let mut line = Vec::new(rt.alloc());
    line.push(b'[').have(rt);
    for k in 0..count {
        let comma: &[u8] = if k == 0 { b"" } else { b"," };
        line.extend_from_slice(comma).have(rt);
        line.extend_from_slice(b"[\"hit\",1]").have(rt);
    }
    line.extend_from_slice(b"]\n").have(rt);
    line
}

#[test]
fn a_long_answer_is_put_before_the_next_line_is_asked_for(rt: HostRuntime) {
    let rt = &rt;
    let line = posts(rt, 1024);
    let many = line.as_slice();
    expect_in_turn(
        rt,
        &[
            b"[]\n",
            many,
            many,
            b"\"readers\"\n",
            b"[7]\n",
            many,
            b"[]\n",
        ],
        4096,
    );
    drop(line);
}

#[test]
fn a_line_may_come_byte_by_byte(rt: HostRuntime) {
    let rt = &rt;
    let line = posts(rt, 1024);
    let many = line.as_slice();
    expect_in_turn(rt, &[b"\n", many, b"[]\n", b"{\n", b"\"readers\"\n"], 1);
    drop(line);
}
