// What readings give, by name.
#![tactic(auto, unfolding(crate::specs::Given::given_by, crate::specs::Given::pressure_given))]

ghost use Rattle.std.specs.Prelude.{◌≡◌};
ghost use Rattle.notes.specs.Given.{given_by, pressure_given};

use fields::fields::{
    ALTITUDE, DENSITY_ALTITUDE, HUMIDITY, MEASURED_PRESSURE, QNH, STATION_PRESSURE, TEMPERATURE,
};
use record::entries::{Readings, entry_of};
use refusal::judge::Figures;

// Each reading, where it is given.
#[derive(Clone, Copy)]
pub struct Given {
    pub altitude_m: Option<f64>,
    pub temperature_c: Option<f64>,
    pub station_pressure_hpa: Option<f64>,
    pub qnh_hpa: Option<f64>,
    pub humidity_percent: Option<f64>,
    pub density_altitude_m: Option<f64>,
    pub measured_pressure_hpa: Option<f64>,
}

// What the notes are about: what the readings give, and their figures.
#[derive(Clone, Copy)]
pub struct Noted {
    pub given: Given,
    pub figures: Figures,
}

impl From<Readings> for Given {
    ghost from_gives = { λ readings given. given ≡ given_by readings };

    fn from(readings: Readings) -> Given {
        Given {
            altitude_m: entry_of(readings, ALTITUDE),
            temperature_c: entry_of(readings, TEMPERATURE),
            station_pressure_hpa: entry_of(readings, STATION_PRESSURE),
            qnh_hpa: entry_of(readings, QNH),
            humidity_percent: entry_of(readings, HUMIDITY),
            density_altitude_m: entry_of(readings, DENSITY_ALTITUDE),
            measured_pressure_hpa: entry_of(readings, MEASURED_PRESSURE),
        }
    }
}

// The pressure that is given, whichever it is, and 0 where none is.
pub(crate) fn pressure_given(given: Given) -> f64
    ensures { result ≡ pressure_given given }
{
    given
        .measured_pressure_hpa
        .or(given.station_pressure_hpa)
        .or(given.qnh_hpa)
        .unwrap_or(0.0)
}
