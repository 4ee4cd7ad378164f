// Definitions that the crates of worked cases share: images written word by word, and what calls come to on them.
#![tactic(auto)]
