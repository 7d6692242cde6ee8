// What readers were given, for callers.
ghost use Rattle.std.specs.Prelude.{◌≡◌, ◌<◌, ◌++◌, ◌^◌, IfSome, OnOk, IfOk, filter, flat_map, length, map};
ghost use Rattle.std.specs.List.{range_with_len};
ghost use Rattle.msg_buffer.specs.Prelude.{History, StandsFor as BufferStandsFor, count};
ghost use Rattle.msg_world.specs.declared.record.Record.{Record};
ghost use Rattle.msg_world.specs.{declared.part.Part.TheVariants.OfType, Prelude.slot};
ghost use Rattle.msg_frames.specs.Prelude.{State, accounts_of};
ghost use Rattle.msg_exec.specs.Prelude.{CoreStands, capped_totals};

use crate::engine_core::Core;
use crate::{Account, EngineOf, NoMemory, RunFault, Totals};
use msg_system::SystemOf;
use msg_world::{Access, TypeNo, Value, World};
use std::alloc::Global;

/// A law: no type has more messages than its count can tell.
fn count_is_known<V: Value>(world: &World<V>, t: TypeNo)
    ensures known { IfSome (slot (OfType t) world.now)
        (λ k. (h : History (Record V)) → BufferStandsFor k h → count h < 2 ^ 64) }
{
    if let Some(messages) = world.messages(t) {
        messages.count();
    }
}

/// An account of a system and a type that it uses.
pub(crate) trait AccountIn<V: Value>: Sized + Drop {
    ghost use Rattle.std.specs.Prelude.{Bool, ℕ, None, Some, if◌then◌else◌};
    ghost use Rattle.msg_world.specs.Prelude.{Values};
    ghost use Rattle.msg_system.specs.Prelude.{IsAccessOf};

    /// Whether there is one of system i for type t.
    ghost is_there: { (values : Values V) → State values → ℕ → ℕ → Bool };

    /// What it is.
    ghost told: { (values : Values V) → State values → ℕ → ℕ → Self };

    /// That of a system with this access, for a type of which it has these totals.
    fn of<S: SystemOf<Value = V>>(
        core: &Core<S, V>,
        system: u32,
        of_type: TypeNo,
        access: &Access,
        totals: &Totals,
    ) -> Option<Self>
        ensures told { (s : State V.values) → CoreStands S.meaning core.now s → of_type < s.types
            → IsAccessOf (s.members system).job.system.needs access.now
            → totals.now ≡ capped_totals ((s.members system).totals of_type)
            → result ≡ (if is_there V.values s system of_type
            then Some (told V.values s system of_type) else None) };
}

impl<V: Value> AccountIn<V> for Account {
    ghost use Rattle.msg_frames.specs.Prelude.{account_of, is_reader};

    ghost is_there = { λ values s i t. is_reader s i t };

    ghost told = { λ values s i t. account_of s i t };

    fn of<S: SystemOf<Value = V>>(
        core: &Core<S, V>,
        system: u32,
        of_type: TypeNo,
        access: &Access,
        totals: &Totals,
    ) -> Option<Account> {
        count_is_known(&core.lender.world, of_type);
        let Totals {
            start,
            got,
            missed,
            cleared,
            ..
        } = *totals;
        let place = start
            .unwrap_or(0)
            .saturating_add(got)
            .saturating_add(missed)
            .saturating_add(cleared);
        access.reads_type(of_type).then_some(Account {
            system,
            of_type,
            start,
            got,
            missed,
            cleared,
            place,
        })
    }
}

/// Appends the accounts of system i.
fn add_accounts<V: Value, S: SystemOf<Value = V>, A: AccountIn<V>>(
    core: &Core<S, V>,
    i: usize,
    accounts: &mut Vec<A>,
) -> Result<(), NoMemory>
    requires there { i < length core.now.lender.systems.items }
    ensures added { OnOk result ((s : State V.values) → CoreStands S.meaning core.now s
        → accounts.new.items ≡ accounts.old.items
        ++ map (A.told V.values s i) (filter (A.is_there V.values s i)
        (range_with_len 0 s.types))) }
{
    let (Some(guarded), Some(totals)) = (&core.lender.systems[i], core.lender.totals.get(i)) else {
        return Ok(());
    };
    let Ok(system) = u32::try_from(i) else {
        return Ok(());
    };
    let access = guarded.system.access();
    for t in 0..core.lender.world.types() {
        let (Some(of_type), Some(of_it)) = (TypeNo::new(t as u32), totals.get(t)) else {
            return Ok(());
        };
        if let Some(account) = A::of(core, system, of_type, &access, of_it) {
            accounts.push(account)?;
        }
    }
    Ok(())
}

/// The accounts of all systems.
pub(crate) fn accounts_in<V: Value, S: SystemOf<Value = V>, A: AccountIn<V>>(
    alloc: Global,
    core: &Core<S, V>,
) -> Result<Vec<A>, NoMemory>
    ensures accounts { IfOk result (λ v. (s : State V.values) → CoreStands S.meaning core.now s
        → v.items ≡ flat_map (λ i. map (A.told V.values s i) (filter (A.is_there V.values s i)
        (range_with_len 0 s.types))) (range_with_len 0 s.systems)) }
{
    let mut accounts = Vec::new(alloc);
    for i in 0..core.lender.systems.len() {
        add_accounts(core, i, &mut accounts)?;
    }
    Ok(accounts)
}

impl<V: Value, S: SystemOf<Value = V>> EngineOf<S, V> {
    ghost use Rattle.std.specs.Prelude.{◌↔◌, All, Err};
    ghost use Rattle.msg_world.specs.declared.run_fault.RunFault.TheVariants.{BadOrder, Spoiled};
    ghost use Rattle.msg_frames.specs.Prelude.{AddsUp};
    ghost use Rattle.msg_exec.specs.Engines.{IsEngine, IsSpoiled, EngineStands};

    /// What each reader was given: for each system, by number, and each type that it reads,
    /// by number.
    ///
    /// # Errors
    ///
    /// `Spoiled`, and `NoMemory`.
    pub fn accounts(&self) -> Result<Vec<Account>, RunFault>
        ensures accounts { IfOk result
            (λ v. (s : State V.values) → EngineStands S.meaning self.now s
            → v.items ≡ accounts_of s) }
        ensures add_up { IfOk result
            (λ v. IsEngine V.values S.meaning self.now → All AddsUp v.items) }
        ensures spoiled { (result ≡ Err Spoiled) ↔ IsSpoiled self.now }
        ensures no_bad_order { ¬ (result ≡ Err BadOrder) }
    {
        let Some(core) = &self.core else {
            return Err(RunFault::Spoiled);
        };
        match accounts_in(self.alloc, core) {
            Ok(accounts) => Ok(accounts),
            Err(NoMemory) => Err(RunFault::NoMemory),
        }
    }
}
