//! Tests of queries: the tests of rows, and answers over tables and views.
#![tactic(auto)]

#[cfg(test)]
mod answers;
#[cfg(test)]
mod made;
#[cfg(test)]
mod row_tests;
#[cfg(test)]
mod shown;
