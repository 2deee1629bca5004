// The floor under the day's takings, against what the day could have earned; no code.
#![tactic(auto)]
