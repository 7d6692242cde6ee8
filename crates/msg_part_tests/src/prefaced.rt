//! Scripts, and what is done before each of their runs.
use msg_system::{Access, NoMemory, Numbered, Refused, Reply, Scripted, Start, SystemOf};
use msg_world::{Counts, Lent, Taken, TypeNo};
use std::alloc::Global;
use std::sync::Arc;
use std::sync::atomic::{AtomicU64, Ordering};

/// Notes a digit at the end of a shared number.
fn note(noted: &AtomicU64, digit: u64) {
    let before = noted.load(Ordering::SeqCst);
    let after = before.wrapping_mul(10).wrapping_add(digit);
    noted.store(after, Ordering::SeqCst);
}

/// What is done before a run.
#[derive(Drop)]
pub enum Before {
    /// There is no memory for it after so many runs.
    FailAfter(u32),
    /// The run is counted.
    Count(Arc<AtomicU64>),
    /// The run is noted by this digit.
    Note { digit: u64, noted: Arc<AtomicU64> },
}

impl Before {
    fn run(&mut self) -> Result<(), NoMemory> {
        match self {
            Before::FailAfter(0) => return Err(NoMemory),
            Before::FailAfter(runs) => *runs -= 1,
            Before::Count(runs) => {
                runs.fetch_add(1, Ordering::SeqCst);
            }
            Before::Note { digit, noted } => note(noted, *digit),
        }
        Ok(())
    }
}

/// A script, and what is done before each of its runs.
#[derive(Drop)]
pub struct Prefaced {
    pub script: Scripted,
    pub before: Before,
}

impl SystemOf for Prefaced {
    type Value = i64;

    ghost use Rattle.std.specs.Prelude.{IfOk};
    ghost use Rattle.msg_world.specs.Prelude.{SameShape, i64_values, taken_of};
    ghost use Rattle.msg_system.specs.Prelude.{Covers, Ran};

    ghost meaning = { λ s. ⟦<Scripted as SystemOf>⟧.meaning s.script };

    fn access(&self) -> Access {
        self.script.access()
    }

    fn read_type(&self, op: u32) -> Option<TypeNo> {
        self.script.read_type(op)
    }

    fn refused(&self, op: u32, reply: &Reply) -> Option<Refused> {
        self.script.refused(op, reply)
    }

    fn begins(&self) -> Start {
        self.script.begins()
    }

    fn start(&mut self, counts: &Counts) {
        self.script.start(counts);
    }

    fn run(&mut self, alloc: Global, lent: Lent, out: &mut Vec<Reply>) -> Result<Taken, NoMemory>
        requires covers { Covers (⟦<Scripted as SystemOf>⟧.meaning self.old.script).needs lent }
        ensures ran { IfOk result
            (λ taken. Ran i64_values (⟦<Scripted as SystemOf>⟧.meaning self.old.script)
            (⟦<Scripted as SystemOf>⟧.meaning self.new.script)
            lent.entry taken out.old.items out.new.items) }
        ensures shape { IfOk result (λ taken. SameShape (taken_of lent.entry) taken) }
    {
        self.before.run()?;
        self.script.run(alloc, lent, out)
    }
}

impl Numbered for Prefaced {
    fn set_number(&mut self, number: u32) {
        self.script.set_number(number);
    }
}
