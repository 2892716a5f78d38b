// The conditions of a question in range.
use crate::question::Question;
use pass::denials::Field;
use pass::ranges::{Pressure, Temperature};

/// The conditions in the vessel and at the densitometer: four fields and not two by two, since the linear liquid takes them crosswise.
#[derive(Clone, Copy, Drop)]
pub struct Conditions {
    pub wall_temperature: Temperature,
    pub vessel_pressure: Pressure,
    pub densitometer_temperature: Temperature,
    pub densitometer_pressure: Pressure,
}

/// The conditions of a question, or the lowest field out of range.
impl TryFrom<&Question> for Conditions {
    ghost use Rattle.liquid.specs.Questions.{Read};

    type Error = Field;

    ghost try_from_gives = { λ question r. Read question.now r };

    fn try_from(question: &Question) -> Result<Conditions, Field> {
        Ok(Conditions {
            wall_temperature: Temperature::new(question.wall_temperature).ok_or(
                Field::WallTemperature,
            )?,
            vessel_pressure: Pressure::new(question.vessel_pressure).ok_or(Field::VesselPressure)?,
            densitometer_temperature: Temperature::new(question.densitometer_temperature).ok_or(
                Field::DensitometerTemperature,
            )?,
            densitometer_pressure: Pressure::new(question.densitometer_pressure).ok_or(
                Field::DensitometerPressure,
            )?,
        })
    }
}
