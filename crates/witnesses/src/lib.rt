// Three systems of four controllers that meet what demand 3 supposes, computed; the theorem applied. Proofs; no code.
#![tactic(auto)]
