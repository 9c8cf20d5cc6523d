//! Tests of single rules, of the words of a command line and of how an input is read: forms as they are published elsewhere,
//! long texts, and each call that no command makes.
#![tactic(auto)]

#[cfg(test)]
mod fields;
#[cfg(test)]
mod given;
#[cfg(test)]
mod graphs;
#[cfg(test)]
mod long_texts;
#[cfg(test)]
mod names;
#[cfg(test)]
mod objects;
#[cfg(test)]
mod results;
#[cfg(test)]
mod shapes;
#[cfg(test)]
mod spaces;
#[cfg(test)]
mod steps;
#[cfg(test)]
mod texts;
#[cfg(test)]
mod times;
#[cfg(test)]
mod words;
