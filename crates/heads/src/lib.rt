// Calls in bytes (docs/FORMAT.md): the head of one, and what refuses a list of them as a whole.

#![tactic(auto)]

pub mod checking;
pub mod head;
pub mod kind;
