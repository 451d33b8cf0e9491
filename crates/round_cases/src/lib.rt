//! Cases of rounds over peers that follow scripts, and of a hub of one place, over public calls alone. Expected bytes are written by hand, from the standards.
#![tactic(auto)]

#[cfg(test)]
mod hubs;
#[cfg(test)]
mod rounds;
#[cfg(test)]
mod scripts;
