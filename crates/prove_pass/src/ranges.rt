// Points and the range that they span.
use crate::answers::{Answer, Answered, Refusal};
use point::ends::Ends;
use point::figures::Point;
use point::statistic::Statistic;
use point::working::point;
use range::judging::range;
use std::alloc::{AllocError, Global};

/// A point of a kind of value, from the two ends of each row, one after the other.
pub fn point_of<V: Statistic>(alloc: Global, numbers: &[i32]) -> Result<Answered, AllocError> {
    let (ends, []) = numbers.as_chunks::<2>() else {
        return Ok(Err(Refusal::Unread));
    };
    let rows: Vec<Ends> = ends
        .iter()
        .map(|&[low, high]| Ends {
            low: i64::from(low),
            high: i64::from(high),
        })
        .collect(alloc)?;
    Ok(
        point::<V>(rows.as_slice())
            .map(Answer::Point)
            .ok_or(Refusal::Unread),
    )
}

/// The range that points span, with its given limits, in steps; a negative limit becomes one that is out of range.
pub fn range_of(alloc: Global, points: &[Point], numbers: &[i32]) -> Result<Answered, AllocError> {
    let limits: Vec<u32> = numbers
        .iter()
        .map(|&limit| u32::try_from(limit).unwrap_or(u32::MAX))
        .collect(alloc)?;
    Ok(
        range(points, limits.as_slice())
            .map(Answer::Range)
            .ok_or(Refusal::Unread),
    )
}
