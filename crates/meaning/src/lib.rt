// What the layout answers and `mtime` mean for every list of calls, over the book's sizes laid end to end and the times
// given: definitions and theorems, no code. It relies on the definitions that the contracts of `layout`, `files` and
// `answers` cite, and on the book.
#![tactic(auto)]
