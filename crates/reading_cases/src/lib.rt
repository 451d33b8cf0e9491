//! Worked cases of what is read, over public calls alone: fields of files, columns and summaries of blocks, targets, tokens and
//! divisions. Whole files are asked of the proved program by `tests/damaged_input`, trees of conditions and options by `tests/whole_replies` and `tests/random_filters`.
#![tactic(auto)]

#[cfg(test)]
mod block_cases;
#[cfg(test)]
mod division_cases;
#[cfg(test)]
mod file_cases;
#[cfg(test)]
mod target_cases;
#[cfg(test)]
mod token_cases;
