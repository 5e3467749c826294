// Every description in legal form is that of a legal text: theorems over the definitions alone.

#![tactic(auto)]
