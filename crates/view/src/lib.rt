// What a file says, and what a pay table says: definitions and their theorems, with no code of its own.
#![tactic(auto)]
