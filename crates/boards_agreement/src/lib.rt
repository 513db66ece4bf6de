// What demand 3 says of runs that are made through the exported functions, and its proof. No code.
#![tactic(auto)]
