ghost use Rattle.std.specs.Prelude.{◌≡◌, ◌<◌, ◌+◌, ◌^◌, ◌≤◌, [], ◌∷◌, ℕ, List, Some, None, IfSome, if◌then◌else◌};
ghost use Rattle.cc_base.specs.Formats.{conversions, is_format};
ghost use Rattle.cc_typed.specs.Formats.{numbers_after, numbers_from};

/// Where the reading of a format stands.
#[derive(Clone, Copy)]
pub(crate) enum Reading {
    Plain,
    /// After a `%`.
    AfterPercent,
    /// After `%l`.
    AfterPercentL,
}

/// Where the reading stands after one more byte, and how many conversions there are by then; none where a `%` begins no
/// conversion.
#[tactic(auto, using(crate::proofs::Conversions::readings))]
fn read_byte(reading: Reading, count: usize, byte: u8) -> Option<(Reading, usize)>
    requires { count + 1 < 2 ^ 64 }
    ensures more { (rest : List ℕ) → numbers_from reading count (byte ∷ rest) ≡ numbers_after result rest }
    ensures few { IfSome result (λ step. step.1 ≤ count + 1) }
{
    match reading {
        Reading::Plain => if byte == b'%' {
            Some((Reading::AfterPercent, count))
        } else {
            Some((Reading::Plain, count))
        },
        Reading::AfterPercent => if byte == b'%' {
            Some((Reading::Plain, count))
        } else if byte == b'd' || byte == b'c' {
            Some((Reading::Plain, count + 1))
        } else if byte == b'l' {
            Some((Reading::AfterPercentL, count))
        } else {
            None
        },
        Reading::AfterPercentL => if byte == b'd' {
            Some((Reading::Plain, count + 1))
        } else {
            None
        },
    }
}

/// How many conversions there are where the format ends here.
#[tactic(auto, using(crate::proofs::Conversions::ends))]
fn read_end(reading: Reading, count: usize) -> Option<usize>
    ensures { result ≡ numbers_from reading count [] }
{
    match reading {
        Reading::Plain => Some(count),
        Reading::AfterPercent => None,
        Reading::AfterPercentL => None,
    }
}

/// How many numbers a format takes; none where a `%` begins no conversion.
#[tactic(auto, using(crate::proofs::Conversions::readings, crate::proofs::Conversions::ends))]
pub fn numbers_taken(format: &[u8]) -> Option<usize>
    ensures count { result ≡ (if is_format format.now then Some (conversions format.now) else None) }
{
    let mut reading = Reading::Plain;
    let mut count = 0;
    for byte in format {
        let (next, counted) = read_byte(reading, count, *byte)?;
        reading = next;
        count = counted;
    }
    read_end(reading, count)
}
