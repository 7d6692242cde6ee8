//! Laws of the settled order. Calling one makes its fact available to the caller's proof; it does
//! nothing at run time.
ghost use Rattle.msg_order.specs.Prelude.{FewerSystemsMakeNoCycle, SettlingMakesNoCycle, ConflictingSystemsAreOrdered, SettledIsTheOrder, BatchesAreByNumber, TurnOrderIsLawful, BatchNumbersRise, LawfulOrdersKeepPaths};

/// Rules that make no cycle among some systems make none among fewer of them. So a plan over
/// systems that have joined can't be refused for a cycle if the rules of all systems have none.
pub fn fewer_systems_make_no_cycle()
    ensures law { FewerSystemsMakeNoCycle }
{}

/// The settled order leads among those that have joined. If the rules make no cycle, it has none.
pub fn settling_makes_no_cycle()
    ensures law { SettlingMakesNoCycle }
{}

/// Of two joined systems in conflict, the settled order leads from one to the other.
pub fn conflicting_systems_are_ordered()
    ensures law { ConflictingSystemsAreOrdered }
{}

/// There is one settled order: a test tells the conflicts, and whichever does makes the same.
pub fn settled_is_the_order()
    ensures law { SettledIsTheOrder }
{}

/// If no path leads back, the batches are those by batch number, and the turns go in that order.
pub fn batches_are_by_number()
    ensures law { BatchesAreByNumber }
{}

/// A turn order is a lawful order.
pub fn turn_order_is_lawful()
    ensures law { TurnOrderIsLawful }
{}

/// A system has one batch number, and the batch numbers rise along a path.
pub fn batch_numbers_rise()
    ensures law { BatchNumbersRise }
{}

/// A lawful order keeps the paths, not the edges alone.
pub fn lawful_orders_keep_paths()
    ensures law { LawfulOrdersKeepPaths }
{}
