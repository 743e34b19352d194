mod faults;
mod full;
mod grammar;
mod limits;
mod loads;
mod meter_runs;
