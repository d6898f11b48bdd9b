// Calls on a record that stays where it lies. There is no code here: the walks of such calls, for any types, stand in proofs/Lending.antt,
// proofs/LendingTwo.antt and proofs/Passing.antt, and the crates that have such calls say their types and contracts in these words. The prover
// walks the calls itself.
#![tactic(auto)]
