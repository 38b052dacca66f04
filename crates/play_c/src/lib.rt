// Lists of calls in bytes for C: that of `play`, with numbers for refusals.

#![tactic(auto)]

mod playing;
