// The customer's three demands as theorems: laws only.

#![tactic(auto)]
