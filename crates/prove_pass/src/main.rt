// Reads passes from standard input, one to a line, and prints what they give or why they are denied.
// A line is a word, some figures and the eleven fields of the record, as whole numbers with one space between:
//     master               the meter's set factor, the master's factor            the sheet of the pass
//     pipe                 V0, D, s, E and α of a pipe prover                     its volume in the pass
//     compact              V0, D, s, E, α_k and α_d of a compact prover           its volume in the pass
//     linear               β and γ of a linear liquid                             its carry factor in the pass
//     exponential          r, K0, K1 and K2 of an exponential liquid              its carry factor in the pass
//     pipe-linear, pipe-exponential, compact-linear, compact-exponential
//                          the set factor, the prover and the liquid              the sheet of the pass
// These lines have no record:
//     point-K, point-MF, point-F   the two ends of each value, in steps           the figures of the point, which is kept
//     range                the given limits, in steps                             the figures of the kept points, which are then let go
// Any other line prints `?`.
#![tactic(auto)]

mod answers;
mod figures;
mod lines;
mod print;
mod ranges;
mod work;

use answers::{Answer, Answered, Refusal};
use lines::numbers;
use liquid::linear::Linear;
use pass::kinds::{Correction, MeterFactor, PulseFactor};
use petroleum::exponential::Exponential;
use point::figures::Point;
use ranges::{point_of, range_of};
use std::alloc::{AllocError, Global};
use vessel::compact::CompactProver;
use vessel::pipe::PipeProver;
use work::{against_master, against_prover, carry_of, volume_of};

/// The answer to a line, by its word and its numbers; want of memory is an error of the program, a refusal is printed. It is one
/// table, which a list of closures would only spread.
fn answer(
    alloc: Global,
    kept: &[Point],
    word: &str,
    numbers: &[i32],
) -> Result<Answered, AllocError> {
    let answered = match word {
        "master" => against_master(numbers),
        "pipe" => volume_of::<PipeProver>(numbers),
        "compact" => volume_of::<CompactProver>(numbers),
        "linear" => carry_of::<Linear>(numbers),
        "exponential" => carry_of::<Exponential>(numbers),
        "pipe-linear" => against_prover::<PipeProver, Linear>(numbers),
        "pipe-exponential" => against_prover::<PipeProver, Exponential>(numbers),
        "compact-linear" => against_prover::<CompactProver, Linear>(numbers),
        "compact-exponential" => against_prover::<CompactProver, Exponential>(numbers),
        "point-K" => point_of::<PulseFactor>(alloc, numbers)?,
        "point-MF" => point_of::<MeterFactor>(alloc, numbers)?,
        "point-F" => point_of::<Correction>(alloc, numbers)?,
        "range" => range_of(alloc, kept, numbers)?,
        _ => Err(Refusal::Unread),
    };
    Ok(answered)
}

/// Prints the answer to a line; keeps a point, and lets the kept ones go after a range.
fn serve(rt: &(impl Print + AllocGlobal), kept: &mut Vec<Point>, text: &str) -> anyhow::Result<()> {
    let (word, rest) = text.split_once(' ').unwrap_or((text, ""));
    let found = numbers(rt.alloc(), rest)?;
    let answered = answer(rt.alloc(), kept.as_slice(), word, found.as_slice())?;
    match answered {
        Ok(answer) => println!(rt; "{answer}")?,
        Err(refusal) => println!(rt; "{refusal}")?,
    }
    // A range that was refused lets the points go, too, so the word decides and not the answer.
    if word == "range" {
        kept.clear();
    }
    if let Ok(Answer::Point(point)) = answered {
        kept.push(point)?;
    }
    Ok(())
}

fn main(rt: HostRuntime) -> anyhow::Result<()> {
    let mut kept = Vec::new(rt.alloc());
    for line in rt.lines(rt.alloc()) {
        let text = line?;
        serve(&rt, &mut kept, text.as_str())?;
    }
    Ok(())
}
