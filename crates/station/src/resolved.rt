// What the readings of a record resolve to: an altitude, a temperature and a pressure that are given or
// taken from the layer, and a humidity.
ghost use Rattle.std.specs.Prelude.{◌≡◌};
ghost use Rattle.station.specs.Resolved.{unmeasured_pressure, pressure_of, resolved_temperature, resolved_pressure, given_temperature, ordinary, at_station};

use atmosphere::given::Reading;
use atmosphere::resolvers::{
    reduce_qnh_to_station_pressure, resolve_station_pressure, resolve_station_temperature,
};
use fields::fields::{ALTITUDE, HUMIDITY, MEASURED_PRESSURE, QNH, STATION_PRESSURE, TEMPERATURE};
use record::entries::{Readings, entry_of};
use refusal::inverse::Station;

#[derive(Clone, Copy)]
pub enum Pressure {
    Station(f64),
    Qnh(f64),
    Measured(f64),
    Absent,
}

// A station: its altitude, temperature and pressure as they are given or taken from the layer, and the
// humidity.
#[derive(Clone, Copy)]
pub struct Resolved {
    pub altitude_m: f64,
    pub temperature: Reading,
    pub pressure: Reading,
    pub humidity_percent: f64,
}

fn unmeasured_pressure(station_pressure_hpa: Option<f64>, qnh_hpa: Option<f64>) -> Pressure
    ensures { result ≡ unmeasured_pressure station_pressure_hpa qnh_hpa }
{
    match (station_pressure_hpa, qnh_hpa) {
        (Some(p), _) => Pressure::Station(p),
        (None, Some(q)) => Pressure::Qnh(q),
        (None, None) => Pressure::Absent,
    }
}

fn pressure_of(readings: Readings) -> Pressure
    ensures { result ≡ pressure_of readings }
{
    if let Some(p) = entry_of(readings, MEASURED_PRESSURE) {
        return Pressure::Measured(p);
    }
    unmeasured_pressure(
        entry_of(readings, STATION_PRESSURE),
        entry_of(readings, QNH),
    )
}

fn resolved_temperature(temperature_c: Option<f64>, altitude_m: f64) -> Reading
    ensures { result ≡ resolved_temperature temperature_c altitude_m }
{
    temperature_c.map_or(
        Reading::FromLayer,
        |t| resolve_station_temperature(t, altitude_m),
    )
}

fn resolved_pressure(pressure: Pressure, altitude_m: f64) -> Reading
    ensures { result ≡ resolved_pressure pressure altitude_m }
{
    match pressure {
        Pressure::Station(p) => resolve_station_pressure(p, altitude_m),
        Pressure::Qnh(q) => Reading::Given(reduce_qnh_to_station_pressure(q, altitude_m)),
        Pressure::Measured(p) => Reading::Given(p),
        Pressure::Absent => Reading::FromLayer,
    }
}

// The temperature of an entry as given, or that the layer has it.
pub fn given_temperature(entry: Option<f64>) -> Reading
    ensures { result ≡ given_temperature entry }
{
    entry.map_or(Reading::FromLayer, Reading::Given)
}

// The station of readings without 06.
pub fn ordinary(readings: Readings) -> Resolved
    ensures { result ≡ ordinary readings }
{
    let altitude_m = entry_of(readings, ALTITUDE).unwrap_or(0.0);
    Resolved {
        altitude_m,
        temperature: resolved_temperature(entry_of(readings, TEMPERATURE), altitude_m),
        pressure: resolved_pressure(pressure_of(readings), altitude_m),
        humidity_percent: entry_of(readings, HUMIDITY).unwrap_or(0.0),
    }
}

// The station that the inverse found, with the humidity of the readings.
pub fn at_station(station: Station, readings: Readings) -> Resolved
    ensures { result ≡ at_station station readings }
{
    Resolved {
        altitude_m: station.altitude_m,
        temperature: Reading::Given(station.temperature_c),
        pressure: Reading::Given(station.pressure_hpa),
        humidity_percent: entry_of(readings, HUMIDITY).unwrap_or(0.0),
    }
}
