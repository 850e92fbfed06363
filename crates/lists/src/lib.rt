// Lists that a function gives, searching, counting and overwriting, with their laws, which no other crate owns. No code.
#![tactic(auto)]
