// The run of a system, as definitions (specs/) with their laws; there is no code here.
#![tactic(auto)]
