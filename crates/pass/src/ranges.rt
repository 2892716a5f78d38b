// Readings in their ranges, as natural numbers. Each kind has a type of its own, whose field names its unit, which
// one type over two const parameters could not.
ghost use Rattle.std.specs.Prelude.{◌≡◌, ◌≤◌, true, false, pos, ◌+ℤ◌, MatchOption};
ghost use Rattle.pass.specs.Ranges.{between, temperate, pressed, dense};

/// A reading as a natural number, if it lies in its range, which no `TryFrom` is given.
pub fn in_range(reading: i32, least: u32, most: u32) -> Option<u32>
    ensures { MatchOption result (between (pos least) (pos most) reading ≡ false) (λ n. (between (pos least) (pos most) reading ≡ true) × (reading ≡ pos n) × (least ≤ n) × (n ≤ most)) }
{
    u32::try_from(reading)
        .ok()
        .filter(|n| (least..=most).contains(n))
}

/// A temperature that was read, in hundredths of a degree above −10 °C.
#[derive(Clone, Copy, Drop)]
pub struct Temperature {
    pub raised: u32,
    ghost ranged: { raised ≤ 6000 },
}

impl Temperature {
    /// A reading in 0.01 °C, if it lies in −1,000 to 5,000.
    pub fn new(reading: i32) -> Option<Temperature>
        ensures { MatchOption result (temperate reading ≡ false) (λ t. (temperate reading ≡ true) × (reading +ℤ pos 1000 ≡ pos t.raised)) }
    {
        if !(-1_000..=5_000).contains(&reading) {
            return None;
        }
        Some(Temperature {
            raised: (reading + 1_000) as u32,
        })
    }
}

/// A gauge pressure that was read, in kPa.
#[derive(Clone, Copy, Drop)]
pub struct Pressure {
    pub kilopascals: u32,
    ghost ranged: { kilopascals ≤ 10000 },
}

impl Pressure {
    /// A reading in kPa, if it lies in 0 to 10,000.
    pub fn new(reading: i32) -> Option<Pressure>
        ensures { MatchOption result (pressed reading ≡ false) (λ p. (pressed reading ≡ true) × (reading ≡ pos p.kilopascals)) }
    {
        let kilopascals = in_range(reading, 0, 10_000)?;
        Some(Pressure { kilopascals })
    }
}

/// A density that was read, in hundredths of a kilogram per cubic metre.
#[derive(Clone, Copy, Drop)]
pub struct Density {
    pub hundredths: u32,
    ghost ranged: { (60000 ≤ hundredths) × (hundredths ≤ 120000) },
}

impl Density {
    /// A reading in 0.01 kg/m³, if it lies in 60,000 to 120,000.
    pub fn new(reading: i32) -> Option<Density>
        ensures { MatchOption result (dense reading ≡ false) (λ d. (dense reading ≡ true) × (reading ≡ pos d.hundredths)) }
    {
        let hundredths = in_range(reading, 60_000, 120_000)?;
        Some(Density { hundredths })
    }
}
