// Demand 3: the day of a list of calls, the allotments of its views and the floor under its takings; no code.
#![tactic(auto)]
