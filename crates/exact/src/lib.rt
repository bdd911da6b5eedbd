// Definitions and theorems only: the run in fractions, and that the method stays within its margins of it.
#![tactic(auto)]
