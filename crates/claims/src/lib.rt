// What holds of every list of calls on a connection record, and of every record: specs/Claim.antt, proved in proofs/. There is no code here.
#![tactic(auto)]
