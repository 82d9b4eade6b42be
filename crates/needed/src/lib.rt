// What demand 3 asks is needed, and what it does not say is false. Nothing here runs.
#![tactic(auto)]
