// What the program prints for an input: definitions.
#![tactic(auto)]
