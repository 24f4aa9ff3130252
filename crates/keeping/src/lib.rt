// What every event keeps, as laws about the rules: the proofs of code and the promises of demands cite them. There is no code here.
#![tactic(auto)]
