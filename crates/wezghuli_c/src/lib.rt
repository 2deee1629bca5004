// The product's archive for callers in C: each function of `wezghuli` under its own name, with the same parameters and
// the same clauses, which hold of it by the call that is its body.
// `include/wezghuli.h` declares these functions, and the constants of `encoding`, to C; a test keeps the two alike.
#![tactic(auto)]

pub mod calls;
pub mod figures;
pub mod search;
pub mod station;
pub mod streams;
pub mod text;
