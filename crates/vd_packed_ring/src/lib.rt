//! A packed ring (VIRTIO 1.2, 2.8): its words, what each of its two sides may do next, and the invariant that they keep.
#![tactic(auto)]

mod control_laws;
mod device_laws;
mod driver_laws;
mod laws;
mod signal_laws;
mod table_laws;

pub use control_laws::{control_law, control_words_law};
pub use device_laws::{
    device_alone_law, device_bag_law, device_given_law, device_law, device_nothing_law,
    device_rest_law, device_taken_law,
};
pub use driver_laws::{
    driver_alone_law, driver_bag_law, driver_collected_law, driver_law, driver_nothing_law,
    driver_offered_law,
};
pub use laws::{
    account_law, agreement_law, base_law, fresh_law, looks_law, position_law, seen_law,
    spelling_law,
};
pub use signal_laws::{
    answers_law, asleep_law, bells_law, event_words_law, hears_law, signals_law, sleep_law,
    unarmed_law,
};
pub use table_laws::{loaded_law, table_law};
