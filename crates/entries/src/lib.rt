// The pool's entries: one reader and one writer for each field.

#![tactic(auto)]

pub mod entry;
