// Document 01's checked examples as theorems over the definitions; no code.
#![tactic(auto)]
