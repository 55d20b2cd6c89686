//! Reading and printing machine files.
mod chains;
mod commands;
mod documents;
mod files;
mod iovas;
mod machines;
mod making;
mod printing;
mod regions;
mod rings;
mod switches;
mod words;
