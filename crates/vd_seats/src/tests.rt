mod asleep;
mod kinds;
mod rows;
mod run;
mod told;
mod told_packed;
mod told_split;
mod turns;
