//! Cuts bytes at a mark.
ghost use Rattle.std.specs.Prelude.{◌≡◌, ◌<◌, IfSome, length, option_map};
ghost use Rattle.my_script.specs.Cut.{first_of, rest_of};

/// What stands before the first mark, and what follows it, if there is one.
#[derive(Clone, Copy)]
pub struct Pieces<'a> {
    pub first: &'a [u8],
    pub rest: Option<&'a [u8]>,
}

/// Cuts the bytes at the first of these marks.
pub fn cut(mark: u8, bytes: &[u8]) -> Pieces<'_>
    ensures first { result.first.now ≡ first_of mark bytes.now }
    ensures rest { option_map (λ r. r.now) result.rest ≡ rest_of mark bytes.now }
    ensures shorter { IfSome result.rest (λ r. length r.now < length bytes.now) }
{
    for (i, byte) in bytes.iter().enumerate() {
        if *byte == mark {
            return Pieces {
                first: &bytes[..i],
                rest: Some(&bytes[i + 1..]),
            };
        }
    }
    Pieces {
        first: bytes,
        rest: None,
    }
}
