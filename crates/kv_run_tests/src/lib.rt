//! Tests of scripts, of their lines and of the texts of answers, and the examples of docs/library.md. They use public
//! calls alone.
#![tactic(auto)]

#[cfg(test)]
mod examples;
#[cfg(test)]
mod scripts;
#[cfg(test)]
mod texts;
