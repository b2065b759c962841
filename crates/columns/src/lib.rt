// Decimal columns: definitions only.
#![tactic(auto)]
