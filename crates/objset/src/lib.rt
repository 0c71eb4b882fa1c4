// Sets of objects (document 01: sets of cards) as 64-bit words: object d is in the set if and only if the word's digit d,
// of weight 2 to the power d, is 1. A set holds objects from 0 to 63; any other number is outside every set.
// Each promise is an equation with a definition of specs/Objset.antt and holds for any numbers; those of the public functions speak of
// membership alone.
//
// Sets are plain words and no type of their own (document 01), since constants, arrays and the C side hold them.
#![tactic(auto)]

ghost use Rattle.std.specs.Prelude.{◌≡◌};
ghost use Rattle.objset.specs.Objset.{mask_of, has, none, is_empty, first_object, added, removed, joined, meeting, below};

// How many objects there are at most: the digits of a word.
pub const OBJECTS: usize = 64;

// The mask of object d (document 01: its mark), by a shift: the set that holds d alone. Of 64 or more it is the empty set.
fn mask(d: usize) -> u64
    ensures { result ≡ mask_of d }
{
    if d < OBJECTS { 1 << d } else { EMPTY }
}

// The set that holds nothing: for constants and arrays. `empty()` is the one that promises it.
pub const EMPTY: u64 = 0;

// The set that holds nothing.
pub fn empty() -> u64
    ensures { result ≡ none }
{
    EMPTY
}

// Whether the set holds nothing.
pub fn is_empty(s: u64) -> bool
    ensures { result ≡ is_empty s }
{
    s == 0
}

// Whether object d is in the set s: never, where d is 64 or more.
pub fn contains(s: u64, d: usize) -> bool
    ensures { result ≡ has s d }
{
    d < OBJECTS && (s >> d) % 2 == 1
}

// The first object of the set, if it is not empty. A caller goes over the objects of a set by taking the first one out, until there is none.
pub fn first(s: u64) -> Option<usize>
    ensures { result ≡ first_object s }
{
    if is_empty(s) {
        None
    } else {
        Some(s.trailing_zeros() as usize)
    }
}

// The set s with object d added: s itself, where d is 64 or more.
pub fn insert(s: u64, d: usize) -> u64
    ensures { result ≡ added s d }
{
    s | mask(d)
}

// The set s without object d: s itself, where d is not in it.
pub fn remove(s: u64, d: usize) -> u64
    ensures { result ≡ removed s d }
{
    s & !mask(d)
}

// The objects that are in a, in b, or in both.
pub fn union(a: u64, b: u64) -> u64
    ensures { result ≡ joined a b }
{
    a | b
}

// Whether some object is in both sets.
pub fn meets(a: u64, b: u64) -> bool
    ensures { result ≡ meeting a b }
{
    a & b != 0
}

// Whether the set lies within the first n objects: each object in it is below n.
pub fn within(s: u64, n: usize) -> bool
    ensures { result ≡ below s n }
{
    OBJECTS <= n || s < (1 << n)
}
