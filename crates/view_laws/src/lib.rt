// What is true of the view: the theorems that tie a file's records, what they say and its pay table together, with no code of its own.
#![tactic(auto)]
