// A sample of the oracle's histories, computed on the model's definitions. There is no code here.
#![tactic(auto)]
