// A temperature or a pressure that a station is given, or takes from the standard atmosphere's layer.
// `resolvers` says which of those that are reported count as given.
#[derive(Clone, Copy)]
pub enum Reading {
    Given(f64),
    FromLayer,
}
