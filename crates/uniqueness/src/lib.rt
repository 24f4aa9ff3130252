// That each contract of a public function admits one result: proofs/Theorems.antt has a theorem for each. There is no code here.
#![tactic(auto)]
