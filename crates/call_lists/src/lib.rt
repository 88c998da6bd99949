// What lists of calls on the one-step machine and on the plain writer come to: statements and proofs; no code.
#![tactic(auto)]
