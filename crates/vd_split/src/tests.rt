//! Both ends over plain words, against worked rows, and the driver's over a port of another kind.
mod operations;
mod rows;
mod tables;
mod tracked;
