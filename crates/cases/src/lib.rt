// Document 01's worked cases, gathered into one list that is proved by computation.
#![tactic(auto)]
