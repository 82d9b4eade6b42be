// What holds of every run: an accepted call leaves a sound book. Nothing runs here: the theorem is in specs/.
#![tactic(auto)]
