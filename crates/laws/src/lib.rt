// Theorems over the rules, for every n, folding, mask and cost, in specs/. This crate has no code.
#![tactic(auto)]
