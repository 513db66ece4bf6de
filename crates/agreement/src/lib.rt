// Demand 3: the correct controllers agree. Definitions and proofs; no code.
#![tactic(auto)]
