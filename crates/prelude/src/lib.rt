// General laws that the logic's library does not have: Boolean tests, lists, ranges of indices, signed numbers as a machine holds them.
#![tactic(auto)]
