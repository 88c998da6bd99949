// The customer's demands as theorems about the code's contracts; no code.
#![tactic(auto)]
