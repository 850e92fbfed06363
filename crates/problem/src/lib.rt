// What an answer of a job is: right and wrong rows, reduced vectors, the answer and its bytes, with nothing of the method. No code.
#![tactic(auto)]
