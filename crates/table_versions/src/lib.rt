// A table of version 1 and the same table in version 2: definitions and the theorem.
#![tactic(auto)]
