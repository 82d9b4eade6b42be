// Rules of which demand 3 is false. Nothing here runs.
#![tactic(auto)]
