// PackStream version 1, document 01, "Values": what holds of the readers and the packers together. There is no code here: the claims stand
// in specs/.
#![tactic(auto)]
