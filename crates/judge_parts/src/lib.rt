// The judge of header lines and items handed to the writer, their canonical text, and the agreement with the rules: all in specs/. Nothing runs here.
#![tactic(auto)]
