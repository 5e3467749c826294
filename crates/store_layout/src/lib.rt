// Where the bits of a word stand in the store, and what follows of that alone.
#![tactic(auto)]
