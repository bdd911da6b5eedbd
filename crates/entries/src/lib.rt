// What the entries start, step and forecast answer, as definitions, and what follows of a state from them.
#![tactic(auto)]
