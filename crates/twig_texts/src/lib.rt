// A crate of definitions and laws, without code.
#![tactic(auto)]
