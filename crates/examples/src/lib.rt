// Examples of the planner's rules. Each stands once, as a row of a table or as a test of its own.
#![tactic(auto)]

#[cfg(test)]
mod tests;
