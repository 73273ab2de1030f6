//! Lemmas on lists, truth values and options that the kit has not.
#![tactic(auto)]
