//! Tests of what people would try first.

#![tactic(auto)]

#[cfg(test)]
mod lines;
