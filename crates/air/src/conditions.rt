// The air at a station: density, speed of sound and the mole fraction of vapour.
ghost use Rattle.std.specs.Prelude.{◌≡◌};
ghost use Rattle.arithmetic.specs.Places.{places};
ghost use Rattle.air.specs.Moist.{Serves};
ghost use Rattle.air.specs.Station.{air_of, conditions_at, atmosphere};

use super::moist::{Saturation, density_of, saturation_at, sound_speed_of};
use atmosphere::given::Reading;
use atmosphere::layers::{calculate_icao_standard_atmosphere, standard_temperature_k};

// A temperature and a pressure, as the formulas take them and as they are shown.
#[derive(Clone, Copy)]
pub struct Conditions {
    pub temp_k: f64,
    pub pressure_pa: f64,
    pub shown_c: f64,
    pub shown_hpa: f64,
}

// Moist air, with the mole fraction of vapour that its density uses.
#[derive(Clone, Copy)]
pub struct Air {
    pub density_kg_m3: f64,
    pub speed_of_sound_mps: f64,
    pub vapor_mole_fraction: f64,
}

// The density, the speed of sound and the density's mole fraction, of K, Pa and percent.
pub(crate) fn air_of(known: Saturation, temp_k: f64, pressure_pa: f64, humidity_percent: f64) -> Air
    requires { Serves known humidity_percent }
    ensures { result ≡ air_of places temp_k pressure_pa humidity_percent }
{
    let moist = density_of(known, temp_k, pressure_pa, humidity_percent);
    Air {
        density_kg_m3: moist.density_kg_m3,
        speed_of_sound_mps: sound_speed_of(known, temp_k, pressure_pa, humidity_percent),
        vapor_mole_fraction: moist.vapor_mole_fraction,
    }
}

// The temperature and the pressure of the air at an altitude: a temperature in degrees Celsius or a
// pressure in hPa that is given takes the place of the standard atmosphere's.
pub(crate) fn conditions_at(
    altitude_m: f64,
    temp_override_c: Reading,
    press_override_hpa: Reading,
) -> Conditions
    ensures { result ≡ conditions_at places altitude_m temp_override_c press_override_hpa }
{
    match (temp_override_c, press_override_hpa) {
        (Reading::Given(temp_c), Reading::Given(pressure_hpa)) => Conditions {
            temp_k: temp_c + 273.15,
            pressure_pa: pressure_hpa * 100.0,
            shown_c: temp_c,
            shown_hpa: pressure_hpa,
        },
        (Reading::Given(temp_c), Reading::FromLayer) => {
            let standard = calculate_icao_standard_atmosphere(altitude_m);
            Conditions {
                temp_k: temp_c + 273.15,
                pressure_pa: standard.pressure_pa,
                shown_c: temp_c,
                shown_hpa: standard.pressure_pa / 100.0,
            }
        }
        (Reading::FromLayer, Reading::Given(pressure_hpa)) => {
            let temperature_k = standard_temperature_k(altitude_m);
            Conditions {
                temp_k: temperature_k,
                pressure_pa: pressure_hpa * 100.0,
                shown_c: temperature_k - 273.15,
                shown_hpa: pressure_hpa,
            }
        }
        (Reading::FromLayer, Reading::FromLayer) => {
            let standard = calculate_icao_standard_atmosphere(altitude_m);
            Conditions {
                temp_k: standard.temperature_k,
                pressure_pa: standard.pressure_pa,
                shown_c: standard.temperature_k - 273.15,
                shown_hpa: standard.pressure_pa / 100.0,
            }
        }
    }
}

// The density and the speed of sound of the air at an altitude, and the mole fraction of vapour that its
// density uses: a temperature in degrees Celsius or a pressure in hPa that is given takes the place of the
// standard atmosphere's.
#[tactic(auto, using(crate::proofs::Served::served), unfolding(crate::specs::Station::atmosphere))]
pub fn calculate_atmosphere(
    altitude_m: f64,
    temp_override_c: Reading,
    press_override_hpa: Reading,
    humidity_percent: f64,
) -> Air
    ensures { result ≡ atmosphere places altitude_m temp_override_c press_override_hpa humidity_percent }
{
    let at = conditions_at(altitude_m, temp_override_c, press_override_hpa);
    let known = saturation_at(at.temp_k, humidity_percent);
    air_of(known, at.temp_k, at.pressure_pa, humidity_percent)
}
