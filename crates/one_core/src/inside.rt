// What a call makes of one core. Some functions ask what a sound record gives of it: a place in the list, a count that can rise.
pub mod calls;
pub mod jobs;
pub mod transaction;
