// Laws: the turns of functions aren't cut. They need no code.
use crate::{Either, Function, FunctionSystem};
use msg_system::SystemOf;

/// Systems whose turns are never cut, neither by their access nor by the limit of ops: functions,
/// and `Either` of such systems.
pub trait NeverCut: SystemOf {
    ghost use Rattle.msg_world.specs.Prelude.{WorldState};
    ghost use Rattle.msg_function.specs.Functions.{TellsOfNoCut};

    /// A law: no reply of its turn tells of a cut, whatever the world.
    fn no_turn_is_cut(&self)
        ensures law { (s : WorldState Self.Value.values)
            → TellsOfNoCut (⟦<Self as SystemOf>⟧.meaning self.now) s };
}

impl<T: Function<READS, WRITES> + Send, const READS: usize, const WRITES: usize> NeverCut
    for FunctionSystem<T, READS, WRITES> {
    fn no_turn_is_cut(&self) {}
}

impl<A: NeverCut, B: NeverCut + SystemOf<Value = A::Value>> NeverCut for Either<A, B> {
    fn no_turn_is_cut(&self) {
        match self {
            Either::Left(a) => a.no_turn_is_cut(),
            Either::Right(b) => b.no_turn_is_cut(),
        }
    }
}
