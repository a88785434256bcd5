// The veto rule, by which a sender chooses the coefficients of a frame: theory alone. Each function's contract is a theorem, over
// every lawful field.
#![tactic(auto)]

ghost use Rattle.law.specs.Theorems.{FreeCode, OneChoice, VetoByList, ShowsOldest, OldestByRows};

// The oldest unseen packet is told by the rows.
pub fn oldest_by_rows()
    ensures { OldestByRows }
{}

// With as many codes as relays, some code is never vetoed.
pub fn free_code()
    ensures { FreeCode }
{}

// The rule chooses coefficients, and no others.
pub fn one_choice()
    ensures { OneChoice }
{}

// The sum that a relay vetoes is the sum over the packets that are asked for.
pub fn veto_by_list()
    ensures { VetoByList }
{}

// A frame whose coefficient at a relay's oldest unseen packet is not the sum that the relay vetoes shows it that packet.
pub fn shows_oldest()
    ensures { ShowsOldest }
{}
