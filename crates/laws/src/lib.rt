// Laws on truth values, numbers and lists that the crates above share. Nothing runs here: the laws are in specs/.
#![tactic(auto)]
