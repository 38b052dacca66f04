// Lists of calls in bytes (docs/FORMAT.md), checked as a whole and then played through the calls of `engine`; their
// answers are written in bytes.

#![tactic(auto)]

pub mod fresh;
pub mod playing;
