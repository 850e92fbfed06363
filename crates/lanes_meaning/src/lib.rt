// What products of residues, and loops over arrays of them, mean modulo p, for any odd modulus. Proofs only.
#![tactic(auto)]
