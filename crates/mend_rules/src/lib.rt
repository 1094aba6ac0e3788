// A file mended: definitions and theorems, all in specs/. Nothing runs here.
#![tactic(auto)]
