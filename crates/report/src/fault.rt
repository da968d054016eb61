// The reading that a refusal of readings is about.
ghost use Rattle.std.specs.Prelude.{◌≡◌, find};
ghost use Rattle.record.specs.Entries.{entry_of};
ghost use Rattle.refusal.specs.Refusals.{number_of};
ghost use Rattle.report.specs.Fault.{not_finite, not_positive, first_not_finite, first_not_positive, named, reading_about};

use arithmetic::doubles::is_finite;
use fields::fields::{
    ALTITUDE, DENSITY_ALTITUDE, HUMIDITY, MEASURED_PRESSURE, QNH, STATION_PRESSURE, TEMPERATURE,
};
use record::entries::{Readings, entry_of};
use refusal::Refusal;

fn is_not_finite(readings: Readings, meaning: usize) -> bool
    ensures { result ≡ not_finite (entry_of readings meaning) }
{
    entry_of(readings, meaning).is_some_and(|x| !is_finite(x))
}

fn is_not_positive(readings: Readings, meaning: usize) -> bool
    ensures { result ≡ not_positive (entry_of readings meaning) }
{
    entry_of(readings, meaning).is_some_and(|p| p <= 0.0)
}

// The first of some meanings whose reading is not finite.
fn not_finite_among(readings: Readings, meanings: &[usize]) -> Option<usize>
    ensures { result ≡ find (λ meaning. not_finite (entry_of readings meaning)) meanings.now }
{
    meanings
        .iter()
        .copied()
        .find(|&meaning| is_not_finite(readings, meaning))
}

#[tactic(auto, unfolding(crate::specs::Fault::first_not_finite))]
fn first_not_finite(readings: Readings) -> usize
    ensures { result ≡ first_not_finite readings }
{
    let meanings = [ALTITUDE, STATION_PRESSURE, QNH, HUMIDITY];
    not_finite_among(readings, &meanings).unwrap_or(MEASURED_PRESSURE)
}

#[tactic(auto, unfolding(crate::specs::Fault::first_not_positive))]
fn first_not_positive(readings: Readings) -> usize
    ensures { result ≡ first_not_positive readings }
{
    [STATION_PRESSURE, QNH]
        .into_iter()
        .find(|&meaning| is_not_positive(readings, meaning))
        .unwrap_or(MEASURED_PRESSURE)
}

// The meaning of the reading that a refusal is about, if it is about one.
#[tactic(auto, unfolding(crate::specs::Fault::reading_about))]
pub fn reading_of(readings: Readings, refusal: Refusal) -> Option<usize>
    ensures { named result ≡ reading_about readings (number_of refusal) }
{
    match refusal {
        Refusal::DensityAltitudeNotFinite(_) | Refusal::NoAir(_, _) => Some(DENSITY_ALTITUDE),
        Refusal::TemperatureNotFinite(_) | Refusal::TemperatureTooLow(_) => Some(TEMPERATURE),
        Refusal::NotFinite(_) => Some(first_not_finite(readings)),
        Refusal::PressureNotPositive(_) => Some(first_not_positive(readings)),
        Refusal::HumidityOutOfRange(_) => Some(HUMIDITY),
        _ => None,
    }
}
