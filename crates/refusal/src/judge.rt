// The eight figures of a station and their mark.
// The figures, and whether the shown temperature and pressure lie in the range of CIPM-2007.
#[derive(Clone, Copy)]
pub struct Figures {
    pub altitude_m: f64,
    pub temperature_c: f64,
    pub pressure_hpa: f64,
    pub density_kg_m3: f64,
    pub speed_of_sound_mps: f64,
    pub pressure_altitude_m: f64,
    pub density_matched_altitude_m: f64,
    pub vapor_mole_fraction: f64,
    pub in_cipm_range: bool,
}
