//! Laws: facts that hold of every loan, and need no code.
ghost use Rattle.std.specs.Prelude.{◌≡◌};
ghost use Rattle.msg_world.specs.Prelude.{HomeAgain, HomeMerges, HomeWhereEither, LentIsLoan, LoanEnds, LoanStays, MayComeHome, OthersStayHome, OwnedStands, OwnsWhatItWrites, StaysApart, StaysComplete, ValuesStand, WritesStand};

use crate::Value;
use crate::limits::MAX_SYSTEMS;
use crate::record::HOST;

/// What `World::lend_out` moved out is a loan of its access, so that it may be opened. It and the
/// world go on to stand for what the world stood for.
pub fn lent_parts_are_a_loan<V: Value>()
    ensures loan { LentIsLoan V.values }
{}

/// What is written by `Lent::writer` and `Lent::res_mut` is written in the world that the loan
/// stands for, and leaves it the same loan.
pub fn writes_stand<V: Value>()
    ensures messages { WritesStand V.values }
    ensures values { ValuesStand V.values }
{}

/// Loans whose accesses don't conflict stand side by side.
pub fn loans_stand_side_by_side<V: Value>()
    ensures loan { LoanStays V }
    ensures home { OthersStayHome V }
{}

/// What was moved out may be taken back after any use of it, also behind others.
pub fn lent_parts_may_come_home<V: Value>()
    ensures alone { MayComeHome V }
    ensures behind_others { StaysApart V }
{}

/// What `World::take_back` makes of a world is that world with the written parts as they came back.
pub fn written_parts_come_home<V: Value>()
    ensures meaning { HomeMerges V.values }
    ensures shape { HomeAgain V }
    ensures either { HomeWhereEither V }
{}

/// A loan that is opened, used in any way and taken back leaves the world with what it wrote, and
/// all else as it was.
pub fn loans_end<V: Value>()
    ensures ends { LoanEnds V.values }
    ensures complete { StaysComplete V }
    ensures owns { OwnsWhatItWrites V }
    ensures owned { OwnedStands V.values }
{}

/// The host writes as a number past those of all systems, which begin at 0.
pub fn host_comes_after_systems()
    ensures host { HOST ≡ MAX_SYSTEMS }
{}
