// Bytes laid over a lent buffer: definitions and laws only, no code.
#![tactic(auto)]
