// The record of a pass, and its making from a list of its fields.
ghost use Rattle.std.specs.Prelude.{◌≡◌, ◌≢◌, length, MatchResult};

/// The record of one pass, field by field in the order of its numbers.
/// By itself it may hold any numbers: a range is asked where a field is used.
#[derive(Clone, Copy, PartialEq, Eq, Debug, Drop)]
pub struct Record {
    /// 1, N: pulses of the meter.
    pub pulses: i32,
    /// 2, Td: from detector trip to detector trip, in µs.
    pub detector_time: i32,
    /// 3, Tp: from the first pulse after one trip to the first after the other, in µs.
    pub pulse_time: i32,
    /// 4, t_v: wall temperature, in 0.01 °C.
    pub wall_temperature: i32,
    /// 5, P_v: gauge pressure in the vessel, in kPa.
    pub vessel_pressure: i32,
    /// 6, t_d: rod temperature, in 0.01 °C.
    pub rod_temperature: i32,
    /// 7, t_p: temperature at the densitometer, in 0.01 °C.
    pub densitometer_temperature: i32,
    /// 8, P_p: gauge pressure at the densitometer, in kPa.
    pub densitometer_pressure: i32,
    /// 9, ρ: density at the densitometer, in 0.01 kg/m³.
    pub density: i32,
    /// 10, N_m: pulses of the master meter.
    pub master_pulses: i32,
    /// 11, T_m: as Tp, for the master meter, in µs.
    pub master_time: i32,
}

/// How many numbers there were, where a record has eleven fields.
#[derive(Clone, Copy, PartialEq, Eq, Debug, Drop)]
pub struct FieldCount(pub usize);

/// The record whose eleven fields these are, in the order of their numbers.
impl TryFrom<&[i32]> for Record {
    ghost use Rattle.pass.specs.Readings.{InOrder};

    type Error = FieldCount;

    ghost try_from_gives = { λ fields r. MatchResult r (λ p. InOrder p fields.now) (λ e. (length fields.now ≢ 11) × (e.0 ≡ length fields.now)) };

    fn try_from(fields: &[i32]) -> Result<Record, FieldCount> {
        let [n, td, tp, t_v, p_v, t_d, t_p, p_p, rho, n_m, t_m] = *fields else {
            return Err(FieldCount(fields.len()));
        };
        Ok(Record {
            pulses: n,
            detector_time: td,
            pulse_time: tp,
            wall_temperature: t_v,
            vessel_pressure: p_v,
            rod_temperature: t_d,
            densitometer_temperature: t_p,
            densitometer_pressure: p_p,
            density: rho,
            master_pulses: n_m,
            master_time: t_m,
        })
    }
}
