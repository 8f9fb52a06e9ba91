//! Tests of the callers of `example_snippets`, and of what the program `resp` does where its
//! streams fail, over links in memory; and of calls that are tried again.

mod arguments;
mod connections;
mod fields;
mod program;
mod queries;
mod replies;
mod retries;
