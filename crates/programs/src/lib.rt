// A program's lines beside demand 3 and Algorithm 4; no code.
#![tactic(auto)]
