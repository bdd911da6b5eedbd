// Definitions and theorems alone: the cells of a river.
#![tactic(auto)]
