//! Tests of the tables of scripts: what each form of a script puts into them, those of scripts that can't be run yet or are long, and what
//! a script that is made of them answers. It stands on `widl_script_reader`, and has no code but that of its tests.
#![tactic(auto)]

#[cfg(test)]
mod built;
#[cfg(test)]
mod finished;
#[cfg(test)]
mod forms;
#[cfg(test)]
mod rows;
#[cfg(test)]
mod steps_rows;
#[cfg(test)]
mod tables;
