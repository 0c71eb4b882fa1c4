// The calls in place on a record: what the public calls do once they have checked the record and the tables, and what callers use that hold
// a sound record by proof. Setup takes any record. Functions and not methods: `Machine`'s methods are document 01's calls, two of which have these
// names. The tables are two slices, as their owner lends them to a call.
pub mod calls;
pub mod commit;
pub mod setup;
