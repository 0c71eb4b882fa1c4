// Numbers in decimal: ASCII digits with no leading zeros, at most 4,294,967,295.
//
// The contracts cite `specs/`: `spelling n` is how n is written, and `read_as_number field` what a field reads
// as. `proofs/Laws.antt` has what a caller knows of them. The public functions require nothing; `fill`
// has a condition.
//
// Not `str::parse` and `write!`: document 01 allows no sign and no leading zeros, and prints into a lent scratch, which it keeps where it is short.
#![tactic(auto)]

ghost use Rattle.std.specs.Prelude.{◌≡◌, ◌-◌, ◌≤◌, ◌++◌, SomeIff, length, drop};
ghost use Rattle.decimal.specs.Bytes.{byte};
ghost use Rattle.decimal.specs.Spelling.{spelling, shown, printed};
ghost use Rattle.decimal.specs.Reading.{no_leading_zero, read_as_number};
ghost use Rattle.std.specs.Borrow.{sem};
ghost use Rattle.decimal.specs.Scratch.{keeps_from};

// Reads a whole field: the number that it is, or none where it is malformed.
pub fn read(field: &[u8]) -> Option<u32>
    ensures { result ≡ read_as_number field.now }
{
    if !no_leading_zero(field) {
        return None;
    }
    let mut n: u32 = 0;
    for b in field {
        n = n.checked_mul(10)?.checked_add(digit(*b)?)?;
    }
    Some(n)
}

// The digit that a byte is.
fn digit(b: u8) -> Option<u32>
    ensures { SomeIff result ((byte "0" ≤ b) × (b ≤ byte "9")) (b - byte "0") }
{
    match b {
        b'0'..=b'9' => Some((b - b'0') as u32),
        _ => None,
    }
}

// Whether a field has a first byte and no leading zero.
#[tactic(auto, unfolding(crate::specs::Reading::no_leading_zero))]
fn no_leading_zero(field: &[u8]) -> bool
    ensures { result ≡ no_leading_zero field.now }
{
    !matches!(field, [] | [b'0', _, ..])
}

// Prints n into the scratch, and answers with its digits, the first part of the scratch: they begin
// where the scratch does. The bytes after the part keep what they held. A scratch under 10 bytes keeps
// its bytes, and the part is empty.
//
// The scratch is lent for as long as the part is in use. So `rest` speaks of the scratch's last value: what the caller leaves in the
// part, and from the part's end on the bytes that were lent. `proofs/Lender.antt` has what whoever lent it finds.
pub fn print(n: u32, scratch: &mut [u8]) -> &mut [u8]
    ensures digits { result.now ≡ shown n scratch.old }
    ensures first { result.ref_ptr ≡ scratch.entry.ref_ptr }
    ensures* rest { sem 𝓛 (keeps_from (length result.now) scratch.entry result) }
{
    let k = put(n, scratch);
    &mut scratch[..k]
}

// Puts n's digits over the first bytes of the scratch, and answers how many there are. The bytes
// after them keep what they held. A scratch under 10 bytes keeps its bytes, and the answer is 0.
fn put(n: u32, scratch: &mut [u8]) -> usize
    ensures count { result ≡ length (shown n scratch.old) }
    ensures bytes { scratch.new ≡ printed n scratch.old }
{
    if scratch.len() < 10 {
        return 0;
    }
    let k = places(n);
    fill(n, k, scratch);
    k
}

// How many digits n has.
fn places(n: u32) -> usize
    ensures { result ≡ length (spelling n) }
{
    match n {
        0..=9 => 1,
        10..=99 => 2,
        100..=999 => 3,
        1_000..=9_999 => 4,
        10_000..=99_999 => 5,
        100_000..=999_999 => 6,
        1_000_000..=9_999_999 => 7,
        10_000_000..=99_999_999 => 8,
        100_000_000..=999_999_999 => 9,
        _ => 10,
    }
}

// Puts n's k digits over the first bytes of the scratch, from the last to the first.
fn fill(n: u32, k: usize, scratch: &mut [u8])
    requires { (k ≡ length (spelling n)) × (k ≤ length scratch.old) }
    ensures { scratch.new ≡ spelling n ++ drop k scratch.old }
{
    let mut rest = n;
    for i in (1..k).rev() {
        scratch[i] = b'0' + (rest % 10) as u8;
        rest /= 10;
    }
    // the first digit is what is left, with no division
    scratch[0] = b'0' + rest as u8;
}
