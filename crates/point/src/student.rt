// Student's t.
ghost use Rattle.std.specs.Prelude.{◌≡◌, ◌≤◌};
ghost use Rattle.point.specs.Points.{student};

/// Student's t at 0.95 for 5 to 20 passes, in thousandths: a table, as it is printed.
const STUDENT: [u16; 16] = [
    2776, 2571, 2447, 2365, 2306, 2262, 2228, 2201, 2179, 2160, 2145, 2131, 2120, 2110, 2101, 2093,
];

/// Student's t at 0.95 for a number of passes, in thousandths.
#[tactic(auto, using(crate::proofs::Tables::student_range))]
pub(crate) fn quantile(passes: usize) -> u16
    requires { (5 ≤ passes) × (passes ≤ 20) }
    ensures value { result ≡ student passes }
    ensures range { (2093 ≤ result) × (result ≤ 2776) }
{
    STUDENT[passes - 5]
}
