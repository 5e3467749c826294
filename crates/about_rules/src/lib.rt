// What a legal text gives is in legal form: definitions and theorems alone.

#![tactic(auto)]
