// The starred cases of document 01's 'Struck on the bench', in a single table. Definitions and one computed
// test, no code. It relies on the definitions that the contracts of `storage`, `cleaning`, `layout`, `files` and
// `mapping` cite.
#![tactic(auto)]
