// Rings, fields and polynomials over them: degrees, division, Euclid's rule, roots, lowest terms. Mathematics only.
#![tactic(auto)]
