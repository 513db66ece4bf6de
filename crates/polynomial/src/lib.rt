// Polynomials over the field of 256 elements: definitions and laws for the crates above; no code.
#![tactic(auto)]
