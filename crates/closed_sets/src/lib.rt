// What holds for every neighbourhood: the closed sets of cells of a cube's surface are walked through once, in proofs/.
#![tactic(auto)]
