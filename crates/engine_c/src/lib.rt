// The calls of the box (document 01, "The calls") for C: each is that of `engine`, with numbers for refusals and answers
// where the caller wants them.

#![tactic(auto)]

mod answer;
mod audit;
mod backup;
mod collect;
mod converters;
mod count;
mod enrol;
mod format;
mod in_form;
mod listing;
mod read;
mod restore;
mod retire;
mod sizes;
