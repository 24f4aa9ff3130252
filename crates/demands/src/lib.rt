// The three demands as theorems about the rules: proofs/Theorems.antt states each of them, in words of specs/. There is no code here.
#![tactic(auto)]
