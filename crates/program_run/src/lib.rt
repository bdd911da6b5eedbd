// The program one thing after the other, and the theorem that it prints `program` however its input is cut: definitions and proofs.
#![tactic(auto)]
