// Collect: blocks that nothing needs become free.

#![tactic(auto)]

pub mod collect;
