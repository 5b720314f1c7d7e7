// No code: the worked examples, rows of one table about the definitions of the other crates.
#![tactic(auto)]
