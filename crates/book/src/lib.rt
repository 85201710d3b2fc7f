// Demand 3 of document 01: the book, the relation of calls, and the theorem over whole lists of calls and
// every cut into blocks. Definitions and theorems, no code. It relies on the definitions that the contracts of
// `storage`, `trim`, `cleaning`, `renames`, `imports`, `files` and `mapping` cite, and on the laws of `sound` and
// `reached`.
#![tactic(auto)]
