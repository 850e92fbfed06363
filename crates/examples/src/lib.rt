// Tables of examples with a claim each: H1 to H12, answers offered for them, jobs that meet demand 3, margins that are attained. No code.
#![tactic(auto)]
