// Recalled payments taken out: definitions and their theorems, with no code of its own.
#![tactic(auto)]
