// What opening, additions and trims do to the meaning of a set's tables: definitions and theorems, no code.
#![tactic(auto)]
