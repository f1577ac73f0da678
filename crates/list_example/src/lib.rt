// Examples worked out by the definitions, without code: the starred examples of the rules (proofs/Starred.antt), and the list statement cited at five
// lists of calls from another crate (proofs/Example.antt).
#![tactic(auto)]
