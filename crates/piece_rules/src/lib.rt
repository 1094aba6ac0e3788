// The pieces of a record: definitions and theorems, all in specs/. Nothing runs here.
#![tactic(auto)]
