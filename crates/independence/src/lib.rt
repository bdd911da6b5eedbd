// Two trials that differ in one gauge's reading: definitions and the theorem.
#![tactic(auto)]
