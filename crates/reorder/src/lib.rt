// Two orders of one list of results that keep each account's own order: the answers and the rows at the end are the
// same. Nothing runs here: the theorem is in specs/.
#![tactic(auto)]
