// The lowest held block with a fingerprint, found through an index of the held blocks by their buckets.

#![tactic(auto)]

pub mod bucket;
mod comparing;
mod finding;

pub use finding::{Index, search};
