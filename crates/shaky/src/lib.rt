// Document 02's CR 13, "One shaky shot": theorems, and no function. They stand in specs/.
#![tactic(auto)]
