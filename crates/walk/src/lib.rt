// The walk down the network, for any kind of cell: definitions and theorems only.
#![tactic(auto)]
