// A cycle leaves store and record sound, to the byte: theorems over the definitions alone.

#![tactic(auto)]
