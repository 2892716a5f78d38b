// The program's lines: some figures, and the eleven fields of a record.
ghost use Rattle.std.specs.Prelude.{◌≡◌, ◌+◌, length, take, drop, MatchOption, ◌≢◌};
ghost use Rattle.pass.specs.Readings.{InOrder};

use pass::readings::Record;
use std::alloc::{AllocError, Global};

/// The whole numbers of a text, with one space between; nothing where a word is no whole number of 32 bits, as of an empty text:
/// a range without numbers has no given limits, so its line may be either.
pub fn numbers(alloc: Global, text: &str) -> Result<Vec<i32>, AllocError> {
    let mut found = Vec::new(alloc);
    // A loop and no chain: want of memory is an error, but a word that is no number only leaves nothing.
    for word in text.split(' ') {
        let Ok(number) = word.parse::<i32>() else {
            return Ok(Vec::new(alloc));
        };
        found.push(number)?;
    }
    Ok(found)
}

/// So many figures and then the record of a pass; none where there are not just as many numbers.
pub fn figures_and_record(numbers: &[i32], figures: usize) -> Option<(&[i32], Record)>
    ensures { MatchOption result (length numbers.now ≢ figures + 11) (λ l. (l.0.now ≡ take figures numbers.now) × (length l.0.now ≡ figures) × InOrder l.1 (drop figures numbers.now)) }
{
    let (front, fields) = numbers.split_at_checked(figures)?;
    Some((front, Record::try_from(fields).ok()?))
}
