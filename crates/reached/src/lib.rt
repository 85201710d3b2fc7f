// What cleanings do to the meaning of a set's tables, and what BEP 3, 47 and 52 say of every set that the calls reach:
// definitions and theorems, no code.
#![tactic(auto)]
