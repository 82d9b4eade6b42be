// Demand 3 at work: a book and runs of results for which all that it asks holds. Nothing here runs.
#![tactic(auto)]
