// The eight figures of a station and their mark: what is shown of what is resolved, and the figures.
ghost use Rattle.std.specs.Prelude.{◌≡◌};
ghost use Rattle.station.specs.Figures.{in_cipm_range, station_figures, is_air};

use crate::resolved::Resolved;
use air::figures::air_figures;
use arithmetic::doubles::is_finite;
use atmosphere::altitudes::pressure_altitude_m;
use density_altitude::inverse::is_finite_above;
use refusal::judge::Figures;

// The figures of a station, with the mole fraction of vapour, uncapped, of the shown temperature and
// pressure.
#[derive(Clone, Copy)]
pub struct StationFigures {
    pub figures: Figures,
    pub uncapped_vapor_mole_fraction: f64,
}

// Whether CIPM-2007 covers air at a temperature and a pressure.
fn in_cipm_range(temperature_c: f64, pressure_hpa: f64) -> bool
    ensures { result ≡ in_cipm_range temperature_c pressure_hpa }
{
    (temperature_c >= 15.0)
        & (temperature_c <= 27.0)
        & (pressure_hpa >= 600.0)
        & (pressure_hpa <= 1100.0)
}

// The figures of a station and their mark, and the mole fraction of vapour, uncapped, of what is shown.
// Density, sound speed and mole fraction are those of the readings; the two altitudes and the mark are
// those of what is shown.
pub fn figures_of(resolved: Resolved) -> StationFigures
    ensures { result ≡ station_figures resolved }
{
    let temperature = resolved.temperature;
    let pressure = resolved.pressure;
    let found = air_figures(
        resolved.altitude_m,
        temperature,
        pressure,
        resolved.humidity_percent,
    );
    let air = found.air;
    StationFigures {
        figures: Figures {
            altitude_m: resolved.altitude_m,
            temperature_c: found.shown_c,
            pressure_hpa: found.shown_hpa,
            density_kg_m3: air.density_kg_m3,
            speed_of_sound_mps: air.speed_of_sound_mps,
            pressure_altitude_m: pressure_altitude_m(found.shown_hpa),
            density_matched_altitude_m: found.density_matched_altitude_m,
            vapor_mole_fraction: air.vapor_mole_fraction,
            in_cipm_range: in_cipm_range(found.shown_c, found.shown_hpa),
        },
        uncapped_vapor_mole_fraction: found.uncapped_vapor_mole_fraction,
    }
}

// Whether all figures are finite, and pressure, density and sound speed above 0.
pub fn is_air(figures: Figures) -> bool
    ensures { result ≡ is_air figures }
{
    is_finite(figures.altitude_m)
        & is_finite(figures.temperature_c)
        & is_finite_above(figures.pressure_hpa, 0.0)
        & is_finite_above(figures.density_kg_m3, 0.0)
        & is_finite_above(figures.speed_of_sound_mps, 0.0)
        & is_finite(figures.pressure_altitude_m)
        & is_finite(figures.density_matched_altitude_m)
        & is_finite(figures.vapor_mole_fraction)
}
