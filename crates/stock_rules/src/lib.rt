// The join of the scanner log and the catalogue: definitions and theorems, no code.
#![tactic(auto)]
