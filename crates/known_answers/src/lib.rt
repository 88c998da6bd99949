// The published answers of ACORN-128 version 3, and the tape of docs/FORMAT.md, computed by the prover about the definitions; no code.
#![tactic(auto)]
