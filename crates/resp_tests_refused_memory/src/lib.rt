//! Each request for memory refused in turn, for the calls of `resp_core` that may take memory: each
//! answers want of memory or what it answers with ample memory, and leaves what it says. And the
//! calls that take none, shown to make no request.
#![tactic(auto)]

/// Makes each call, with a request for memory refused, and compares what it made.
#[cfg(test)]
macro_rules! makes {
    ($rt:expr; $($call:expr => $wanted:expr),+ $(,)?) => {
        $(
            refuse($rt.alloc());
            let answer = $call;
            made(&$rt, answer, &$wanted);
        )+
    };
}

#[cfg(test)]
mod changes;
#[cfg(test)]
mod clusters;
#[cfg(test)]
mod connecting;
#[cfg(test)]
mod conversions;
#[cfg(test)]
mod copies;
#[cfg(test)]
mod encodings;
#[cfg(test)]
mod fields;
#[cfg(test)]
mod heap;
#[cfg(test)]
mod links;
#[cfg(test)]
mod made;
#[cfg(test)]
mod no_memory;
#[cfg(test)]
mod no_memory_clusters;
#[cfg(test)]
mod no_memory_connecting;
#[cfg(test)]
mod no_memory_errors;
#[cfg(test)]
mod no_memory_requests;
#[cfg(test)]
mod parsing;
#[cfg(test)]
mod programs;
#[cfg(test)]
mod queries;
#[cfg(test)]
mod requests;
#[cfg(test)]
mod scans;
#[cfg(test)]
mod subjects;
