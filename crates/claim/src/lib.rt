// The mission's third property, about every list of steps and forecasts: definitions and the theorem.
#![tactic(auto)]
