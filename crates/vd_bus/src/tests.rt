//! Each call of a new, a running and a suspended bus, with every refusal.
mod messages;
mod moving;
mod steps;
