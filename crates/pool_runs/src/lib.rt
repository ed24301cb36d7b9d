//! Tests of pages and marks with all tables in use.
#![tactic(auto)]

#[cfg(test)]
mod tests;
