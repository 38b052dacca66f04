// Whether a book is in form: the check that every call makes first.

#![tactic(auto)]

mod in_form;

pub use in_form::{check, check_as};
