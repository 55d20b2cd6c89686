//! The parties that a machine is played with.

/// Queue `q` of a machine is played with guest `q` and device `q`.
#[derive(Drop)]
pub struct Bench<G: Drop, V: Drop> {
    pub guests: Vec<G>,
    pub devices: Vec<V>,
}
