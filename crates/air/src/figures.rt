// The figures of a station's air, with one saturation pressure for all of them where their temperatures
// are one double.
ghost use Rattle.std.specs.Prelude.{◌≡◌};
ghost use Rattle.arithmetic.specs.Places.{places};
ghost use Rattle.air.specs.Moist.{density_of, Serves};
ghost use Rattle.air.specs.Figures.{air_figures};

use super::conditions::{Air, Conditions, air_of, conditions_at};
use super::matched::density_matched_altitude_of;
use super::moist::{Saturation, density_of, is_one, saturation_at, uncapped_mole_fraction};
use atmosphere::given::Reading;

// The temperature, degrees Celsius, and the pressure, hPa, that are shown of a station's readings, the air
// of the readings, and of what is shown the mole fraction of vapour, uncapped, and the density-matched
// altitude.
#[derive(Clone, Copy)]
pub struct AirFigures {
    pub shown_c: f64,
    pub shown_hpa: f64,
    pub air: Air,
    pub uncapped_vapor_mole_fraction: f64,
    pub density_matched_altitude_m: f64,
}

// The density of what is shown, which mostly is that of the readings, at hand.
fn shown_density(
    known: Saturation,
    at: Conditions,
    density_kg_m3: f64,
    shown_k: f64,
    shown_pa: f64,
    humidity_percent: f64,
) -> f64
    requires serves { Serves known humidity_percent }
    requires density_kg_m3_value { density_kg_m3 ≡ (density_of places at.temp_k at.pressure_pa humidity_percent).density_kg_m3 }
    ensures { result ≡ (density_of places shown_k shown_pa humidity_percent).density_kg_m3 }
{
    if is_one(at.temp_k, shown_k) && is_one(at.pressure_pa, shown_pa) {
        return density_kg_m3;
    }
    density_of(known, shown_k, shown_pa, humidity_percent).density_kg_m3
}

// What is shown of a station's readings at an altitude, their air as `calculate_atmosphere` has it, and
// the mole fraction of vapour, uncapped, and the density-matched altitude of what is shown.
pub fn air_figures(
    altitude_m: f64,
    temperature: Reading,
    pressure: Reading,
    humidity_percent: f64,
) -> AirFigures
    ensures { result ≡ air_figures places altitude_m temperature pressure humidity_percent }
{
    let at = conditions_at(altitude_m, temperature, pressure);
    let shown_k = at.shown_c + 273.15;
    let shown_pa = at.shown_hpa * 100.0;
    let known = saturation_at(shown_k, humidity_percent);
    let air = air_of(known, at.temp_k, at.pressure_pa, humidity_percent);
    let density = shown_density(
        known,
        at,
        air.density_kg_m3,
        shown_k,
        shown_pa,
        humidity_percent,
    );
    AirFigures {
        shown_c: at.shown_c,
        shown_hpa: at.shown_hpa,
        air,
        uncapped_vapor_mole_fraction: uncapped_mole_fraction(
            known,
            shown_k,
            at.shown_c,
            shown_pa,
            humidity_percent,
        ),
        density_matched_altitude_m: density_matched_altitude_of(density),
    }
}
