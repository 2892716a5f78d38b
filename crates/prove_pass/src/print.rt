// How answers and refusals are printed.
use crate::answers::{Answer, Refusal};
use exact::pair::Pair;
use pass::denials::Denial;
use point::figures::Point;
use range::figures::Range;
use range::left::Left;
use sheet::figures::Sheet;
use std::fmt;

/// A figure under its name: a pair, lower end first, and its unit.
#[derive(Drop)]
struct Figure {
    name: &'static str,
    pair: Pair,
    unit: &'static str,
}

impl Figure {
    fn new(name: &'static str, pair: Pair, unit: &'static str) -> Figure {
        Figure { name, pair, unit }
    }

    fn in_steps(name: &'static str, pair: Pair) -> Figure {
        Figure::new(name, pair, "steps")
    }
}

impl fmt::Display for Figure {
    fn fmt<W: fmt::Write>(&self, f: &mut fmt::Formatter<W>) -> fmt::Result {
        let Figure { name, pair, unit } = self;
        write!(f, "{name} {} {} {unit}", pair.low, pair.high)
    }
}

/// The volume of a vessel.
fn volume(pair: Pair) -> Figure {
    Figure::new("volume", pair, "µl")
}

/// The carry factor of a liquid.
fn carry_factor(pair: Pair) -> Figure {
    Figure::in_steps("carry factor", pair)
}

/// Figures below a heading, each on a line of its own.
#[derive(Drop)]
struct Below<'a>(&'a [Figure]);

impl fmt::Display for Below<'_> {
    fn fmt<W: fmt::Write>(&self, f: &mut fmt::Formatter<W>) -> fmt::Result {
        for figure in self.0 {
            write!(f, "\n  {figure}")?;
        }
        Ok(())
    }
}

/// The figures of a sheet.
fn of_sheet(sheet: &Sheet) -> [Figure; 6] {
    [
        Figure::new("count", sheet.count, "ten-thousandths of a pulse"),
        Figure::new("meter mass", sheet.meter_mass, "mg"),
        Figure::new("reference mass", sheet.reference_mass, "mg"),
        Figure::new("K", sheet.pulse_factor, "steps of the set factor"),
        Figure::in_steps("MF", sheet.meter_factor),
        Figure::in_steps("F", sheet.correction),
    ]
}

/// The figures of a point.
fn of_point(point: &Point) -> [Figure; 4] {
    [
        Figure::in_steps("mean", point.mean),
        Figure::in_steps("S", point.scatter),
        Figure::in_steps("S0", point.of_mean),
        Figure::in_steps("ε", point.random),
    ]
}

/// The figures of a range.
fn of_range(range: &Range) -> [Figure; 5] {
    [
        Figure::in_steps("S0", range.of_mean),
        Figure::in_steps("ε", range.random),
        Figure::in_steps("Θ_A", range.neighbours),
        Figure::in_steps("Θ", range.systematic),
        Figure::in_steps("error", range.error),
    ]
}

/// Which rules for the error are left.
#[derive(Drop)]
struct Rules(Left);

impl fmt::Display for Rules {
    fn fmt<W: fmt::Write>(&self, f: &mut fmt::Formatter<W>) -> fmt::Result {
        f.write_str(match self.0 {
            Left::Systematic => "Θ",
            Left::Random => "ε",
            Left::Mixed => "0.81(Θ + ε)",
            Left::Upper => "Θ or 0.81(Θ + ε)",
            Left::Lower => "ε or 0.81(Θ + ε)",
            Left::Both => "Θ, ε or 0.81(Θ + ε)",
        })
    }
}

impl fmt::Display for Answer {
    fn fmt<W: fmt::Write>(&self, f: &mut fmt::Formatter<W>) -> fmt::Result {
        match self {
            Answer::Volume(pair) => write!(f, "{}", volume(*pair)),
            Answer::Carry(pair) => write!(f, "{}", carry_factor(*pair)),
            Answer::Sheet(sheet) => write!(f, "sheet{}", Below(&of_sheet(sheet))),
            Answer::Proving(proving) => {
                let devices = [volume(proving.volume), carry_factor(proving.factor)];
                let sheet = of_sheet(&proving.sheet);
                write!(f, "sheet{}{}", Below(&devices), Below(&sheet))
            }
            Answer::Point(point) => write!(f, "point{}", Below(&of_point(point))),
            Answer::Range(range) => {
                let figures = of_range(range);
                write!(f, "range{}\n  by {}", Below(&figures), Rules(range.left))
            }
        }
    }
}

impl fmt::Display for Refusal {
    fn fmt<W: fmt::Write>(&self, f: &mut fmt::Formatter<W>) -> fmt::Result {
        match self {
            Refusal::Unread => write!(f, "?"),
            Refusal::Denied(denial) => {
                let number = denial.number();
                match denial {
                    Denial::Figure(place) => write!(f, "denied {number} place {place}"),
                    Denial::Meter(field) => write!(f, "denied {number} field {}", u8::from(*field)),
                    Denial::Reference(fault) => {
                        let device = u8::from(fault.device);
                        let field = u8::from(fault.field);
                        write!(f, "denied {number} device {device} field {field}")
                    }
                    Denial::Value => write!(f, "denied {number}"),
                }
            }
            Refusal::Faulted(field) => write!(f, "fault field {}", u8::from(*field)),
        }
    }
}
