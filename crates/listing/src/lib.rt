// The listing of document 01: from the bytes of an input to the bytes that `setlist` prints. Relies on
// `listing_input` and `listing_output` for the lines, `storage` for the set, and `sound` for what its tables mean.
#![tactic(auto)]

mod run;

pub use run::list;
