//! How many numbers a format converts.

ghost use Rattle.std.specs.Prelude.{◌≡◌, ◌+◌, ℕ, ◌∷◌, List, cond};
ghost use Rattle.cc_base.specs.Formats.{conversions};
ghost use Rattle.cc_code.specs.Checked.{conversions_from};

/// Where the reading of a format stands.
#[derive(Clone, Copy, Drop)]
pub(crate) enum Reading {
    Plain,
    /// After a `%`.
    Percent,
    /// After `%l`.
    Long,
}

#[tactic(auto, unfolding(cc_base::specs::Formats::conversions, cc_base::specs::Formats::conversions_after_percent, cc_base::specs::Formats::conversions_after_percent_l))]
/// Where the reading stands after one more byte, and whether a conversion ended there.
fn read_byte(reading: Reading, byte: u8) -> (Reading, bool)
    ensures { (rest : List ℕ) → conversions_from reading (byte ∷ rest) ≡ cond result.1 1 0 + conversions_from result.0 rest }
{
    match (reading, byte) {
        (Reading::Plain | Reading::Long, b'%') => (Reading::Percent, false),
        (Reading::Percent, b'd' | b'c') | (Reading::Long, b'd') => (Reading::Plain, true),
        (Reading::Percent, b'l') => (Reading::Long, false),
        _ => (Reading::Plain, false),
    }
}

/// How many numbers a format takes.
pub(crate) fn conversions(format: &[u8]) -> u64
    ensures { result ≡ conversions format.now }
{
    let mut reading = Reading::Plain;
    let mut count = 0;
    for byte in format {
        let (next, ended) = read_byte(reading, *byte);
        reading = next;
        if ended {
            count += 1;
        }
    }
    count
}
