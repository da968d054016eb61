// The checks on a record's readings: each is passed, or is the refusal that it gives.
ghost use Rattle.std.specs.Prelude.{◌≡◌};
ghost use Rattle.refusal.specs.Outcomes.{passed, outcome};
ghost use Rattle.density_altitude.specs.Inverse.{temperature_rows};
ghost use Rattle.mast.specs.Checks.{is_clash, finite_rows, pressure_rows, humidity_rows, present, value_rows, ordinary_rows};

use arithmetic::doubles::is_finite;
use density_altitude::inverse::check_temperature;
use fields::fields::{
    ALTITUDE, DENSITY_ALTITUDE, HUMIDITY, MEASURED_PRESSURE, QNH, STATION_PRESSURE, TEMPERATURE,
};
use record::entries::{Readings, entry_of};
use refusal::{Refusal, refuse_if};

// Two of 03, 04 and 07, or 06 with 01, 03, 04 or 07.
pub(crate) fn is_clash(readings: Readings) -> bool
    ensures { result ≡ is_clash readings }
{
    let altitude = entry_of(readings, ALTITUDE).is_some();
    let station_pressure = entry_of(readings, STATION_PRESSURE).is_some();
    let qnh = entry_of(readings, QNH).is_some();
    let density_altitude = entry_of(readings, DENSITY_ALTITUDE).is_some();
    let measured = entry_of(readings, MEASURED_PRESSURE).is_some();
    (station_pressure & qnh)
        | (measured & (station_pressure | qnh))
        | (density_altitude & (altitude | station_pressure | qnh | measured))
}

fn check_finite(x: f64) -> Result<(), Refusal>
    ensures { outcome result ≡ passed (finite_rows x) }
{
    refuse_if(!is_finite(x), Refusal::NotFinite(x))
}

// The refusal of an altitude, where there is one: 11.
pub fn check_altitude(entry: Option<f64>) -> Result<(), Refusal>
    ensures { outcome result ≡ passed (present finite_rows entry) }
{
    entry.map_or(Ok(()), check_finite)
}

fn check_celsius(entry: Option<f64>) -> Result<(), Refusal>
    ensures { outcome result ≡ passed (present temperature_rows entry) }
{
    entry.map_or(Ok(()), check_temperature)
}

// The refusal of a pressure, where there is one: 11 or 12.
pub fn check_pressure(entry: Option<f64>) -> Result<(), Refusal>
    ensures { outcome result ≡ passed (present pressure_rows entry) }
{
    let Some(p) = entry else {
        return Ok(());
    };
    check_finite(p)?;
    refuse_if(p <= 0.0, Refusal::PressureNotPositive(p))
}

// The refusal of a humidity, where there is one: 11 or 13.
pub fn check_humidity(entry: Option<f64>) -> Result<(), Refusal>
    ensures { outcome result ≡ passed (present humidity_rows entry) }
{
    let Some(h) = entry else {
        return Ok(());
    };
    check_finite(h)?;
    refuse_if((h < 0.0) | (h > 100.0), Refusal::HumidityOutOfRange(h))
}

// The values by rising tag.
fn check_values(readings: Readings) -> Result<(), Refusal>
    ensures { outcome result ≡ passed (value_rows readings) }
{
    check_altitude(entry_of(readings, ALTITUDE))?;
    check_celsius(entry_of(readings, TEMPERATURE))?;
    check_pressure(entry_of(readings, STATION_PRESSURE))?;
    check_pressure(entry_of(readings, QNH))?;
    check_humidity(entry_of(readings, HUMIDITY))?;
    check_pressure(entry_of(readings, MEASURED_PRESSURE))
}

// Readings without 06: that there is an altitude, then the values.
pub(crate) fn check_ordinary(readings: Readings) -> Result<(), Refusal>
    ensures { outcome result ≡ passed (ordinary_rows readings) }
{
    refuse_if(entry_of(readings, ALTITUDE).is_none(), Refusal::NoAltitude)?;
    check_values(readings)
}
