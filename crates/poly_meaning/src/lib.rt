// What the code's polynomials, their division and their greatest common divisor mean in the polynomial ring. Proofs only.
#![tactic(auto)]
