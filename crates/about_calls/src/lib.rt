// What the definitions promise of every call, and what follows from the contracts: theorems, and no code.
#![tactic(auto)]
