// Pairs of atoms that bonds join: theorems, all in specs/. Nothing runs here.
#![tactic(auto)]
