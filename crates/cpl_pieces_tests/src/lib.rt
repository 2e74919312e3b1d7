//! Worked cases of mosaics and their pieces: contacts, layouts, strips, fields, faces and group updates.
#![tactic(auto)]

#[cfg(test)]
mod faces;
#[cfg(test)]
mod fields;
#[cfg(test)]
mod layouts;
#[cfg(test)]
mod mosaics;
#[cfg(test)]
mod shapes;
#[cfg(test)]
mod strips;
#[cfg(test)]
mod updates;
