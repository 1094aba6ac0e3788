// Judging that goes on behind a refused record: which stretches of a file are records, accepted or refused, all in specs/. Nothing runs here.
#![tactic(auto)]
