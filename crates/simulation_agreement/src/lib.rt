// The simulator's run meets what demand 3 supposes: the correct controllers end with one result. Definitions and proofs; no code.
#![tactic(auto)]
