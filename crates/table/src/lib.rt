// Files with a line of names: a file's first line says the order of the fields, and each other line has its fields in that order, one
// space between. Which names a file has, how many, and how long a line may be is the caller's to say.
//
// `order` reads the line of names, and `cut` finds where the fields of a line stand; `Fields::part` gives the bytes of one. `reader` is
// the line reader, by which a line is cut. Their contracts cite `specs/`. What a caller knows of what stands there is in `proofs/`: `Laws`
// of lines and pieces, `PieceEnds` of where a piece ends, `Cuts` of fields, `Ordering` of names. The public functions require nothing, but
// for `Fields::part`.
#![tactic(auto)]

mod cutting;
mod ends;
mod heading;
mod inside;
pub mod reader;

pub use cutting::cut;
pub use ends::piece_end;
pub use heading::order;

// The most fields that a line may have; what is held past the places of the names.
pub const MOST_FIELDS: usize = 5;

// A lent line and where its fields begin, and past the last where one more would: an array and a count (no heap).
#[derive(Clone, Copy)]
pub struct Fields<'a> {
    pub line: &'a [u8],
    pub begins: [usize; MOST_FIELDS + 1],
    pub count: usize,
}
