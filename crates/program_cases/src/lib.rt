//! Cases of the service: each public call answers once, over a folder on the disk, the one that is built in, connections over the loopback device, and devices
//! that fail. Expected bytes are written by hand, from the standards. What each request, folder and line of words is answered with, byte for byte, is asked
//! of the proved program by the scripts in `tests/`.
#![tactic(auto)]

#[cfg(test)]
mod answers;
#[cfg(test)]
mod base;
#[cfg(test)]
mod connections;
#[cfg(test)]
mod devices;
#[cfg(test)]
mod folders;
#[cfg(test)]
mod rests;
#[cfg(test)]
mod sessions;
