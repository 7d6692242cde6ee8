// Readers that give a few bytes at each read, that fail, and one that never ends.
use crate::equal::{Have, expect_eq};
use msg_command::{InputFault, MAX_BYTES, read_all};
use std::io;
use std::io::{Error, ErrorKind, Read};
use std::process::Abort;

/// Gives `left` bytes, each of them 7, at most `at_once` at each read; then an error or the end,
/// which is told so many times.
#[derive(Drop)]
struct Drips {
    left: usize,
    at_once: usize,
    fails: bool,
    ends: u32,
}

impl Read for Drips {
    fn read(&mut self, buf: &mut [u8]) -> io::Result<usize> {
        if self.left == 0 && self.fails {
            return Err(Error::from(ErrorKind::Other));
        }
        let n = self.left.min(self.at_once).min(buf.len());
        for byte in buf[..n].iter_mut() {
            *byte = 7;
        }
        self.left -= n;
        self.ends = self.ends.saturating_add(u32::from(n == 0));
        Ok(n)
    }
}

fn input_of(left: usize, at_once: usize, fails: bool) -> Drips {
    Drips {
        left,
        at_once,
        fails,
        ends: 0,
    }
}

/// How many bytes there are, and how many come at each read. Nothing is read after the end.
#[test]
fn whole_inputs(rt: HostRuntime) {
    let rt = &rt;
    expect_whole(rt, 0, 1);
    expect_whole(rt, 5, 2);
    expect_whole(rt, MAX_BYTES, 4096);
}

fn expect_whole(rt: &(impl Abort + AllocGlobal), left: usize, at_once: usize) {
    let mut input = input_of(left, at_once, false);
    let all = read_all(rt.alloc(), &mut input).have(rt);
    expect_eq(rt, (all.len(), input.ends), (left, 1));
    for byte in &all {
        expect_eq(rt, *byte, 7);
    }
    drop(all);
}

/// How many bytes there are, how many come at each read, whether the reader fails after them, and
/// the fault. The last reader never ends.
#[test]
fn faults(rt: HostRuntime) {
    for (left, at_once, fails, want) in [
        (3, 1, true, InputFault::Failed),
        (MAX_BYTES, 4096, true, InputFault::Failed),
        (MAX_BYTES + 1, 4096, true, InputFault::TooLarge),
        (usize::MAX, 1, false, InputFault::TooLarge),
    ] {
        let mut input = input_of(left, at_once, fails);
        expect_eq(&rt, read_all(rt.alloc(), &mut input).err(), Some(want));
    }
}
