// What the parts of a game are called.
ghost use Rattle.std.specs.Prelude.{◌≡◌, []};

use msg_exec::EngineOf;
use msg_names::Names;
use msg_system::SystemOf;
use msg_world::Value;
use std::alloc::Global;
use std::io::Print;

/// The names of a game's systems, types and resources, each at its number.
#[derive(Drop)]
pub struct GameNames {
    pub systems: Vec<&'static str>,
    pub types: Vec<&'static str>,
    pub resources: Vec<&'static str>,
}

impl GameNames {
    /// There are none. It takes no memory.
    pub fn new(alloc: Global) -> GameNames
        ensures systems { result.systems.items ≡ [] }
        ensures types { result.types.items ≡ [] }
        ensures resources { result.resources.items ≡ [] }
    {
        GameNames {
            systems: Vec::new(alloc),
            types: Vec::new(alloc),
            resources: Vec::new(alloc),
        }
    }

    /// These names, to show a log or an account with them.
    pub fn names(&self) -> Names {
        Names {
            systems: self.systems.as_slice(),
            types: self.types.as_slice(),
            resources: self.resources.as_slice(),
        }
    }

    /// Prints what became of each reader's messages, and what each writer was refused, if it was
    /// refused some.
    pub fn tell<R: Print, V: Value, S: SystemOf<Value = V>>(
        &self,
        rt: &R,
        engine: &EngineOf<S, V>,
    ) -> anyhow::Result<()> {
        let names = self.names();
        for account in &engine.accounts()? {
            println!(rt; "{}", names.account(*account, engine.backlog(account)))?;
        }
        for account in &engine.writer_accounts()? {
            if account.refused > 0 {
                println!(rt; "{}", names.writer_account(*account))?;
            }
        }
        Ok(())
    }
}
