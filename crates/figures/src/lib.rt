// Facts only: the starred figures of document 01, and two storms of M-106.
#![tactic(auto)]
