// Worked examples, each proved safe and then run.
#![tactic(auto)]

#[cfg(test)]
mod passes {
    use pass::denials::{Denial, Field};
    use pass::meter::Meter;
    use pass::readings::Record;
    use reference::master::MasterMeter;
    use reference::reference::Reference;
    use sheet::figures::Sheet;
    use std::test::Fail;

    // A pass that the meter and the master count alike, but for the meter's two times.
    fn timed(pulses: i32, detector_time: i32, pulse_time: i32) -> Record {
        Record {
            pulses,
            detector_time,
            pulse_time,
            wall_temperature: 0,
            vessel_pressure: 0,
            rod_temperature: 0,
            densitometer_temperature: 0,
            densitometer_pressure: 0,
            density: 0,
            master_pulses: pulses,
            master_time: detector_time,
        }
    }

    #[test]
    fn the_count_is_scaled_by_the_two_times(rt: HostRuntime) -> Result<(), Fail> {
        let count = Meter::count(&timed(2_000, 9_999_000, 10_000_000))?;
        assert_eq!(rt; count.low, 19_998_000);
        assert_eq!(rt; count.high, 19_998_000, "1,999.8 pulses");
        Ok(())
    }

    #[test]
    fn times_that_differ_by_one_pulse_are_taken(rt: HostRuntime) -> Result<(), Fail> {
        let count = Meter::count(&timed(2_000, 9_995_000, 10_000_000))?;
        assert_eq!(rt; count.low, 19_990_000);
        Ok(())
    }

    #[test]
    fn times_that_differ_by_more_are_denied(rt: HostRuntime) -> Result<(), Fail> {
        let denial = Meter::count(&timed(2_000, 9_994_999, 10_000_000)).err();
        assert_eq!(rt; denial, Some(Denial::Meter(Field::PulseTime)));
        assert_eq!(rt; denial.map(|d| d.number()), Some(4));
        Ok(())
    }

    #[test]
    fn a_factor_out_of_range_is_denied_by_its_place(rt: HostRuntime) -> Result<(), Fail> {
        assert_eq!(rt; MasterMeter::open(9_999_999).err(), Some(Denial::Figure(1)));
        Ok(())
    }

    #[test]
    fn a_meter_that_counts_less_than_its_master_has_a_factor_above_one(
        rt: HostRuntime,
    ) -> Result<(), Fail> {
        let meter = Meter::open(100_000_000)?;
        let master = MasterMeter::open(100_000_000)?;
        let s = Sheet::against(&meter, &master, &timed(2_000, 9_999_000, 10_000_000))?;
        assert_eq!(rt; s.meter_mass.low, 199_980_000);
        assert_eq!(rt; s.reference_mass.low, 200_000_000);
        assert_eq!(rt; s.meter_factor.low, 100_010_001);
        assert_eq!(rt; s.correction.high, 10_002);
        Ok(())
    }
}

#[cfg(test)]
mod provers {
    use liquid::linear::Linear;
    use liquid::meaning::Liquid;
    use liquid::question::Question;
    use pass::meter::Meter;
    use pass::readings::Record;
    use prover::prover::Prover;
    use reference::reference::Reference;
    use sheet::figures::Sheet;
    use std::test::Fail;
    use vessel::pipe::PipeProver;
    use vessel::section::SectionFigures;
    use vessel::vessel::Vessel;

    // A pass at 12.38 °C and 250 kPa.
    fn cold() -> Record {
        Record {
            pulses: 101_234,
            detector_time: 61_234_567,
            pulse_time: 61_234_321,
            wall_temperature: 1_238,
            vessel_pressure: 250,
            rod_temperature: 0,
            densitometer_temperature: 1_251,
            densitometer_pressure: 240,
            density: 84_512,
            master_pulses: 0,
            master_time: 0,
        }
    }

    // The measuring section of a prover.
    fn section() -> SectionFigures {
        SectionFigures {
            volume: 11_920_130,
            bore: 4_000,
            wall: 100,
            modulus: 210_000,
        }
    }

    #[test]
    fn a_pipe_prover_that_was_calibrated_in_the_field(rt: HostRuntime) -> Result<(), Fail> {
        let prover = PipeProver::open(&section(), 1_120)?;
        let volume = prover.ask(&cold())?;
        assert_eq!(rt; volume.low, 11_917_617_171);
        assert_eq!(rt; volume.high, 11_917_617_172);
        Ok(())
    }

    #[test]
    fn a_warmer_densitometer_raises_the_carry_factor(rt: HostRuntime) -> Result<(), Fail> {
        let liquid = Linear::open(800, 700)?;
        let factor = liquid.ask(&Question {
            wall_temperature: 2_000,
            vessel_pressure: 1_500,
            densitometer_temperature: 2_100,
            densitometer_pressure: 1_000,
        })?;
        assert_eq!(rt; factor.low, 100_115_000);
        Ok(())
    }

    #[test]
    fn a_whole_pass_against_a_prover(rt: HostRuntime) -> Result<(), Fail> {
        let vessel = PipeProver::open(&section(), 1_120)?;
        let liquid = Linear::open(850, 750)?;
        let meter = Meter::open(100_000_000)?;
        let s = Sheet::against(&meter, &Prover { vessel, liquid }, &cold())?;
        assert_eq!(rt; s.reference_mass.low, 10_073_005_097);
        assert_eq!(rt; s.meter_factor.low, 99_501_794);
        Ok(())
    }
}

#[cfg(test)]
mod statistics {
    use pass::kinds::Correction;
    use point::ends::Ends;
    use point::working::point;
    use std::test::Fail;

    #[test]
    fn the_scatter_of_corrections_is_not_divided_by_their_mean(
        rt: HostRuntime,
    ) -> Result<(), Fail> {
        let none = Ends { low: 0, high: 0 };
        let two = Ends {
            low: 20_000,
            high: 20_000,
        };
        let four = Ends {
            low: 40_000,
            high: 40_000,
        };
        let rows = [none, two, four, two, two];
        let found = point::<Correction>(&rows).ok_or_else(|| Fail::new("no point"))?;
        assert_eq!(rt; found.mean.low, 20_000);
        assert_eq!(rt; found.scatter.low, 14_142);
        assert_eq!(rt; found.random.high, 17_559);
        Ok(())
    }
}
