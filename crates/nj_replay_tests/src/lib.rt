//! The tests of the replayer, and of what stands on it: cleaned movies, and traces of frames. They stand apart, since a
//! crate with tests of its own is proved twice, and their cartridge, scripts and movies are the same. The replayer's
//! movies and answers are texts (`data`), which cost no proof however many they are.
#![tactic(auto)]

#[cfg(test)]
mod cleaning;
#[cfg(test)]
mod data;
#[cfg(test)]
mod movies;
#[cfg(test)]
mod tracing;
