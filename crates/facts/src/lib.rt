// What holds of rows, keys, finds, counts and sums, and of what the rules write. Nothing runs here: the facts are in
// specs/.
#![tactic(auto)]
