//! Tests of public calls over values and texts: pages, numbers and adapters (page_source), values, schema texts, the
//! texts of rows, and the words of a command line.
#![tactic(auto)]

#[cfg(test)]
mod column_values_tests;
#[cfg(test)]
mod command_line_tests;
#[cfg(test)]
mod page_source_tests;
#[cfg(test)]
mod row_text_tests;
#[cfg(test)]
mod schema_text_tests;
