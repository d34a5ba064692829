// No code: definitions and laws of choice, tests and searches over lists, which every crate above uses.
#![tactic(auto)]
