// The definitions of a step and of a forecast of the whole network, and what a forecast or a trial answers.
#![tactic(auto)]
