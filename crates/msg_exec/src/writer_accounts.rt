// What writers were refused, for callers.
ghost use Rattle.std.specs.Prelude.{◌≡◌, IfOk};
ghost use Rattle.msg_frames.specs.Prelude.{State, writer_accounts_of};

use crate::accounts::{AccountIn, accounts_in};
use crate::engine_core::Core;
use crate::{EngineOf, NoMemory, RunFault, Totals, WriterAccount};
use msg_system::SystemOf;
use msg_world::{Access, TypeNo, Value};

impl<V: Value> AccountIn<V> for WriterAccount {
    ghost use Rattle.msg_frames.specs.Prelude.{is_writer, writer_account_of};

    ghost is_there = { λ values s i t. is_writer s i t };

    ghost told = { λ values s i t. writer_account_of s i t };

    fn of<S: SystemOf<Value = V>>(
        _core: &Core<S, V>,
        system: u32,
        of_type: TypeNo,
        access: &Access,
        totals: &Totals,
    ) -> Option<WriterAccount> {
        access.writes_type(of_type).then_some(WriterAccount {
            system,
            of_type,
            refused: totals.refused,
        })
    }
}

impl<V: Value, S: SystemOf<Value = V>> EngineOf<S, V> {
    ghost use Rattle.std.specs.Prelude.{◌↔◌, Err};
    ghost use Rattle.msg_world.specs.declared.run_fault.RunFault.TheVariants.{BadOrder, Spoiled};
    ghost use Rattle.msg_exec.specs.Engines.{IsSpoiled, EngineStands};

    /// What each writer was refused: for each system, by number, and each type that it writes, by
    /// number. Beside `accounts` these are all losses: a message of a system is counted here if it
    /// was never written, and there if it was written and not read.
    ///
    /// ```
    /// for account in &engine.writer_accounts()? {
    ///     if account.refused > 0 {
    ///         let WriterAccount { system, refused, .. } = account;
    ///         println!(rt; "system {system} wrote {refused} messages in vain")?;
    ///     }
    /// }
    /// ```
    ///
    /// # Errors
    ///
    /// `Spoiled`, and `NoMemory`.
    pub fn writer_accounts(&self) -> Result<Vec<WriterAccount>, RunFault>
        ensures accounts { IfOk result
            (λ v. (s : State V.values) → EngineStands S.meaning self.now s
            → v.items ≡ writer_accounts_of s) }
        ensures spoiled { (result ≡ Err Spoiled) ↔ IsSpoiled self.now }
        ensures no_bad_order { ¬ (result ≡ Err BadOrder) }
    {
        let Some(core) = &self.core else {
            return Err(RunFault::Spoiled);
        };
        match accounts_in(self.alloc, core) {
            Ok(accounts) => Ok(accounts),
            Err(NoMemory) => Err(RunFault::NoMemory),
        }
    }
}
