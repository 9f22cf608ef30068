// Worked cases of the rules: one table, which the checker computes from the rules themselves.
#![tactic(auto)]

ghost use Rattle.cases.specs.Cases.{EveryCaseHolds};

// That each case of the table holds.
pub fn hold()
    ensures { EveryCaseHolds }
{}
