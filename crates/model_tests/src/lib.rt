//! Worked rows of the session model, run by its plain program, and of a receiver with a window: tests alone.
#![tactic(auto)]

#[cfg(test)]
mod tests;
#[cfg(test)]
mod windows;
