// What is proved of the definitions alone.

#![tactic(auto)]
