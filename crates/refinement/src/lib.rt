// Algorithm 4 of document 000, line by line, and the theorem that the day chooses as it does: definitions and laws
// only.
#![tactic(auto)]
