// Audit (document 01, "Audit says yes exactly when"), in one pass each over the records, the maps, the entries and the
// held fingerprints.

#![tactic(auto)]

pub mod audit;
mod prints;
