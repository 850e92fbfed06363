// The method over any field: two pairs under the rows, all outputs, the last test, and that there is one answer. Mathematics only.
#![tactic(auto)]
