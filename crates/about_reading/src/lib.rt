// What reading accepts and refuses: theorems over the definitions alone.
#![tactic(auto)]
