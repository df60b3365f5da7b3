//! Worked numbers of layout files: records, reals, placements, loops and made-up rows.
#![tactic(auto)]

#[cfg(test)]
mod boundaries;
#[cfg(test)]
mod loops;
#[cfg(test)]
mod placements;
#[cfg(test)]
mod reals;
#[cfg(test)]
mod records;
#[cfg(test)]
mod rows;
