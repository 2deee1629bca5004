// An input of bytes answered line by line.
#![tactic(auto)]

pub mod feed;
