//! Tests over the public names of `resp_core`: of arguments by their types and of the states of
//! objects, which are commands, cursors, pipelines, parsers, values and errors; of links and parsers
//! over devices that fail, and before malicious peers (`devices`); and of the callers of
//! `example_snippets` and the program `resp` (`examples`). `testing` and `checks` have what they
//! share.
#![tactic(auto)]

/// Calls a check of a runtime with each value and what is wanted of it.
#[cfg(test)]
macro_rules! each {
    ($check:path, $rt:expr; $($value:expr => $wanted:expr),+ $(,)?) => {
        $($check(&$rt, $value, $wanted);)+
    };
}

#[cfg(test)]
mod arguments;
#[cfg(test)]
mod checks;
#[cfg(test)]
mod commands;
#[cfg(test)]
mod devices;
#[cfg(test)]
mod encodings;
#[cfg(test)]
mod errors;
#[cfg(test)]
mod examples;
#[cfg(test)]
mod flat_conversions;
#[cfg(test)]
mod flat_replies;
#[cfg(test)]
mod one_value;
#[cfg(test)]
mod own_types;
#[cfg(test)]
mod parsers;
#[cfg(test)]
mod pipelines;
#[cfg(test)]
mod replies;
#[cfg(test)]
mod requests;
#[cfg(test)]
mod testing;
#[cfg(test)]
mod values;
#[cfg(test)]
mod writing;
