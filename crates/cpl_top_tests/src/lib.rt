//! Tests of the top call over a shelf and a sink of which chosen calls fail. What the program does with real files is tried by
//! running it.
#![tactic(auto)]

#[cfg(test)]
mod column;
#[cfg(test)]
mod tests;
