//! The parties over rings of plain words, by single steps.
mod orders;
mod pair;
mod played;
mod rows;
mod scripts;
mod sleeping;
mod steps;
