// Two storms, each rain of the second at least that of the first: definitions and the theorem.
#![tactic(auto)]
