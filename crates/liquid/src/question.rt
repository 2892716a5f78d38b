// The question that a pass puts to a liquid.
use pass::readings::Record;

/// What a liquid is asked: the conditions in the vessel, to which the density is carried, and at the densitometer, where it was read.
/// By itself a question may hold any numbers: a range is asked where a field is used.
#[derive(Clone, Copy, PartialEq, Eq, Debug, Drop)]
pub struct Question {
    /// Field 4 of the record, t_v: wall temperature, in 0.01 °C.
    pub wall_temperature: i32,
    /// 5, P_v: gauge pressure in the vessel, in kPa.
    pub vessel_pressure: i32,
    /// 7, t_p: temperature at the densitometer, in 0.01 °C.
    pub densitometer_temperature: i32,
    /// 8, P_p: gauge pressure at the densitometer, in kPa.
    pub densitometer_pressure: i32,
}

/// Fields 4, 5, 7 and 8 of a record.
impl From<&Record> for Question {
    ghost use Rattle.std.specs.Prelude.{◌≡◌};
    ghost use Rattle.liquid.specs.Asking.{question_of};

    ghost from_gives = { λ pass question. question ≡ question_of pass.now };

    fn from(pass: &Record) -> Question {
        Question {
            wall_temperature: pass.wall_temperature,
            vessel_pressure: pass.vessel_pressure,
            densitometer_temperature: pass.densitometer_temperature,
            densitometer_pressure: pass.densitometer_pressure,
        }
    }
}
