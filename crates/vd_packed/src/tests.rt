//! Both ends over plain words, against worked rows; event words, and takes of other drivers' words.
mod bells;
mod calls;
mod events;
mod last_id;
mod rows;
mod tabled;
