// That the solver's candidate is the answer and the only one: what the code's definitions mean in the method over a field. Proofs only.
#![tactic(auto)]
