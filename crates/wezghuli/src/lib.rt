// The product for callers in C and Rust. A state lies in memory that the caller lends: seven words of a head, the terms
// and the counts of its campaigns. Each operation changes it where it stands and answers in five words; a stream of
// lines has the first bytes of an unfinished line beside it.
// The crate `wezghuli_c` exports these functions to C, each under its name. `include/wezghuli.h` declares them, and the
// constants of `encoding`; a test keeps the two alike.
#![tactic(auto)]

pub mod calls;
pub mod figures;
pub mod search;
pub mod station;
pub mod streams;
pub mod text;
