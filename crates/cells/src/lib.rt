// The local test of document 01 as mathematics: its rules (specs/) and what holds for every block (proofs/).
// The code of the test is in the crate local_test.
#![tactic(auto)]
