// The front door: what the customer asked for, sentence by sentence, and a night worked through it. Laws only.

#![tactic(auto)]
