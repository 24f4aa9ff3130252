// The laws of what rules defines: of its words, of records, tables and sweeps, of chains and of accepted images. There is no code here.
#![tactic(auto)]
