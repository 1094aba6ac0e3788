// Formulas: definitions and theorems, all in specs/. Nothing runs here.
#![tactic(auto)]
