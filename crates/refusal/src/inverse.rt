// The station with a given density altitude.
#[derive(Clone, Copy)]
pub struct Station {
    pub altitude_m: f64,
    pub temperature_c: f64,
    pub pressure_hpa: f64,
}
