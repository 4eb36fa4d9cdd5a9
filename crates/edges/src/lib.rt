// Lines at the edges of what can be read, each with its answer: the tests of `lines` and `serve`, in a crate of their own so that these are not proved twice.
#![tactic(auto)]

#[cfg(test)]
mod inputs;
#[cfg(test)]
mod readings;
#[cfg(test)]
mod replies;
