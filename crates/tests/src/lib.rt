#![tactic(auto)]

// Tests of loading, of evaluation, of recorders and feeds, of tables of examples, and of what is read and written, most at the edges of their rules.
// They stand apart, since a crate with tests is proved twice. Only `embed` has its own: no crate can depend on a static library.
// Texts with their answers, and sheets with what comes of them, are no tests but rows of the tables of `examples`.
#[cfg(test)]
mod answer_texts;
#[cfg(test)]
mod closings;
#[cfg(test)]
mod example_tables;
#[cfg(test)]
mod feeds;
#[cfg(test)]
mod holding;
#[cfg(test)]
mod looking;
#[cfg(test)]
mod numbers;
#[cfg(test)]
mod reading;
#[cfg(test)]
mod recorders;
#[cfg(test)]
mod scripts;
#[cfg(test)]
mod searching;
#[cfg(test)]
mod stops;
#[cfg(test)]
mod tables;
