// What the writers write, the readers read back: theorems, all in specs/. Nothing runs here.
#![tactic(auto)]
