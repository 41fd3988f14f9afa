// The worked cases: rows of one table, over the definitions that the contracts of the code cite.
#![tactic(auto)]

ghost use Rattle.cases.specs.Rows.{Cases};

// Every row of the table holds.
pub fn worked_cases()
    ensures { Cases }
{}
