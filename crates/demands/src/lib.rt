// What holds of the day's definitions: demands 1 and 2 of one call, rule 1 of a view, soundness kept by every call,
// document 01's cases; no code.
#![tactic(auto)]
