// Demands 1 and 2, of every call and all bytes and lengths: what a refusal leaves, and when each status is given. Nothing
// runs here: the theorems are in specs/.
#![tactic(auto)]
