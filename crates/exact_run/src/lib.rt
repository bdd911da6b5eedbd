// The run in fractions of a whole network, as definitions, and the theorems that the cabinet stays within its margins of it.
#![tactic(auto)]
